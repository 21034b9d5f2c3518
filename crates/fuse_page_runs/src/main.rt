// Runs of `fuse_pages` on folders of data: each case's title, and then the whole output.
#![tactic(auto)]

use definitions::Output;
use run_cases::folder;
use std::io;

// Each case: its title, and its folder. The last two have no pages.
const CASES: [(&str, &str); 5] = [
    ("pages of two tables without rows", "no_rows"),
    ("pages of 32 rows of 16 columns in each file", "full_tables"),
    ("pages of a device that has no guest", "none"),
    ("no pages, as both files are ragged", "ragged_both"),
    ("no pages, as there are 1,025 sets", "refused_9"),
];

fn main(rt: HostRuntime) -> io::Result<()> {
    folder::run_all(&rt, &CASES, |board, plant| {
        fuse_body::run_output(&rt, Output::Pages, board.as_bytes(), plant.as_bytes())
    })
}
