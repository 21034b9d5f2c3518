// Request A3: the pages of a table image as text, 60 lines of 80 characters each.
#![tactic(auto)]

mod all;
mod call;
mod fields;
mod layout;
mod lines;

pub use all::put_all;
pub use call::{PAGE_BYTES, page};
