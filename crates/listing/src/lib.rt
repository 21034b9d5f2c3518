// The lines of the program `fuse` of document 01, each behind what a writer has written so far.
#![tactic(auto)]

mod lines;
mod sets;
mod tables;

pub use lines::{ragged_line, refusal_line, refused_line};
pub use sets::sets_lines;
pub use tables::{table_lines, union_lines};
