// Complement union of three tables, whose groupings differ.
use crate::complement;
use run_cases::{grouping, image};
use std::io;

// Each case: its name, and its three tables. No smaller three differ: than the first, of tables without marks; than the second, of all.
const CASES: [(&str, &str, &str, &str); 2] = [
    // Each pair of rows is joined to 1 2 3, and the row of the table that comes last stands beside it.
    ("complement of three tables", ":;| 12", ":<| 13", ";<| 23"),
    // Column 11 is marked by the third table: where it comes before the first, what the rows share in column 10 doesn't count.
    (
        "complement of three tables, a column marked",
        ":;| 12",
        ":<| 13",
        "k|",
    ),
];

const ROOM: usize = 12;

pub(crate) fn run(rt: &(impl Print + AllocGlobal)) -> io::Result<()> {
    for (name, first, second, third) in CASES {
        println!(rt; "{name}:")?;
        let (x, y) = image::pair(rt.alloc(), first, second)?;
        let z = image::of_text(rt.alloc(), third)?;
        grouping::both(rt, &x, &y, &z, |a, b| complement(rt, a, b, ROOM, ROOM))?;
    }
    Ok(())
}
