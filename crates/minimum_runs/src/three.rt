// Minimum union of three tables in either grouping, and the last result with itself, if there is one.
use crate::minimum;
use run_cases::{grouping, image};
use std::io;

// Each case: its name, and its three tables.
const CASES: [(&str, &str, &str, &str); 8] = [
    ("three tables", ":k| 73 7- 8-", "<;:| 237 43-", "l:| -7 !-"),
    ("three tables, no column shared", "1| 1 2", "2| 3 -", "3| 4"),
    (
        "three tables, the third subsumes the others",
        "12| 1- -2",
        "23| 2- -3",
        "123| 123",
    ),
    ("three tables, two without rows", "12|", "23| 12", "3|"),
    (
        "three tables, each marks another column",
        "a2| 12",
        "b3| 23",
        "1c| 13",
    ),
    // A result of 32 rows is taken as a table. One of more is refused: in one grouping before the third, in both with itself.
    (
        "three tables, 32 rows of the first two",
        "1| 0123456789:;<=>?@ABCDEFGHIJKLMNO",
        "1| 0",
        "2| 0",
    ),
    (
        "three tables, 33 rows of the first two",
        "1| 0123456789:;<=>?@ABCDEFGHIJKLMNO",
        "2| 0",
        "1| 0",
    ),
    ("three tables, 17 columns", "12345678|", "9:;<=>?@|", "1A|"),
];

const ROOM: usize = 140;

pub(crate) fn run(rt: &(impl Print + AllocGlobal)) -> io::Result<()> {
    for (name, first, second, third) in CASES {
        println!(rt; "{name}:")?;
        let (x, y) = image::pair(rt.alloc(), first, second)?;
        let z = image::of_text(rt.alloc(), third)?;
        let result = grouping::both(rt, &x, &y, &z, |a, b| minimum(rt, a, b, ROOM))?;
        if result.is_empty() {
            continue;
        }
        print!(rt; " with itself")?;
        let again = minimum(rt, &result, &result, ROOM)?;
        grouping::compare(rt, &again, &result)?;
    }
    Ok(())
}
