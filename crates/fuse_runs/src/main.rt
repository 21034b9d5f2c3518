// Runs of `fuse` on folders of data: each case's title, and then the whole output. It names a ragged file as board.tbl or plant.tbl, whatever
// folder it is in.
#![tactic(auto)]

use run_cases::folder;
use std::io;

// Each case: its title, and its folder.
const CASES: [(&str, &str); 16] = [
    // Pairs that are accepted.
    ("two tables without rows", "no_rows"),
    ("64 rows that all complement each other", "one_set"),
    ("1,024 sets", "many_sets"),
    ("32 rows of 16 columns in each file", "full_tables"),
    ("a column is marked", "marked"),
    ("a device has no guest", "none"),
    // A missing file is empty.
    ("board.tbl is missing", "no_board"),
    ("plant.tbl is missing", "no_plant"),
    // Files whose bytes make no whole number of words, and a file that is longer than what is read of it.
    ("board.tbl has a byte too many", "ragged_board"),
    ("plant.tbl has a byte too few", "ragged_plant"),
    ("both files are ragged", "ragged_both"),
    (
        "plant.tbl has 2,121 bytes, of which 2,120 are read",
        "long_file",
    ),
    // Pairs that complement union refuses.
    ("33 rows", "refused_3"),
    ("a union of 17 columns", "refused_8"),
    ("1,025 sets", "refused_9"),
    ("1,024 fused rows of 16 columns", "refused_10"),
];

fn main(rt: HostRuntime) -> io::Result<()> {
    folder::run_all(&rt, &CASES, |board, plant| {
        fuse_body::run(&rt, board.as_bytes(), plant.as_bytes())
    })
}
