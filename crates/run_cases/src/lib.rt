// What the runs of the calls share: tables from short texts, changes of them, and the answers and buffers of a call as lines; and what the
// runs of the programs do, on folders of data.
#![tactic(auto)]

pub mod change;
pub mod fan;
pub mod folder;
pub mod grouping;
pub mod image;
pub mod print;
