// The set list: written for complement union, and read back.
#![tactic(auto)]

mod checks;
mod members;
mod order;
mod read;
mod write;

use definitions::SET_WIDTH;
pub use read::read_set_list;
pub use write::write_list;

// A record: the mark words of a set, and the word with the position of its joined row. It is a piece of the words of a list, and so no struct.
pub(crate) type Record = [u32; SET_WIDTH];
