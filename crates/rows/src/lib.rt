// Rows of words that stand one after the other in a flat list: their comparison, the indices of the distinct rows in ascending order, the
// position of a row among them, and rows written by their indices. Rows stay where they are; only their indices are moved.
#![tactic(auto)]

mod compare;
mod named;
mod order;
mod write;

pub use named::Rows;
