// The steps of complement union from T on: who complements whom, the maximal sets, the joined rows of sets, and the fused table.
#![tactic(auto)]

mod fused;
mod graph;
mod groups;
mod join;
mod positions;
mod union_rows;

pub use fused::{fuse_rows, list_sets};
pub use union_rows::UnionRows;
