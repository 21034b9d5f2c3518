// What code and definitions share: the limits, the answers of the calls, and what the programs print.
#![tactic(auto)]

mod answers;
mod limits;
mod refusal;

pub use answers::{ComplementCounts, MinimumCounts, OuterCounts, ReadingCounts};
pub use limits::{
    MARK_WORDS, MARKS_PER_WORD, MAX_COLUMNS, MAX_IDS, MAX_ROWS, MAX_SETS, MAX_STORED_ROWS,
    MAX_UNION_ROWS, SET_WIDTH,
};
pub use refusal::{Question, Refusal, Subject};

// What a program prints of two tables that complement union fuses: the listing of `fuse`, or the pages of the fused table.
#[derive(Clone, Copy, Debug, PartialEq, Eq)]
pub enum Output {
    Listing,
    Pages,
}
