// Outer union of tables that texts describe.
use crate::outer;
use run_cases::image;
use std::io;

// Each case: its name, its two tables, and the words of the buffer.
const CASES: [(&str, &str, &str, usize); 20] = [
    // rows
    ("no rows", "1|", "1|", 8),
    ("one cell", "1| 7", "1|", 8),
    ("one empty cell", "1| -", "1| -", 8),
    ("number 0 is filled", "1| 0", "1| -", 8),
    ("none, 0 and empty", "12| !1 -1 01", "21| 10 1! 1z", 16),
    ("equal rows", "12| 34 34", "12| 34", 8),
    ("32 rows", "1| 0123456789:;<=>?@ABCDEFGHIJKLMNO", "1| -", 40),
    (
        "33 rows",
        "1| 0123456789:;<=>?@ABCDEFGHIJKLMNOP",
        "1| -",
        40,
    ),
    // columns
    ("disjoint columns", "31| 56", "42| 78", 16),
    ("shared columns", "312| 567 -8-", "24| 78 7-", 24),
    ("same columns, other order", "21| 56", "12| 65", 8),
    ("marked columns", "ca2| 567 -8-", "b4| 78 7-", 24),
    ("16 columns", "12345678| 1-------", "9:;<=>?@| -------2", 64),
    (
        "17 columns",
        "12345678| 1-------",
        "9:;<=>?@A| -------2-",
        64,
    ),
    ("17 columns, no room", "12345678|", "9:;<=>?@A|", 0),
    // room
    (
        "buffer one word short",
        ":;<| 73- 7-X 95Y",
        ":=;| 723 91-",
        24,
    ),
    ("buffer exact", ":;<| 73- 7-X 95Y", ":=;| 723 91-", 25),
    ("buffer longer", ":;<| 73- 7-X 95Y", ":=;| 723 91-", 30),
    ("no rows, no room", "1|", "1|", 1),
    ("no buffer", "1|", "1|", 0),
];

pub(crate) fn run(rt: &(impl Print + AllocGlobal)) -> io::Result<()> {
    for (name, first, second, room) in CASES {
        let (a, b) = image::pair(rt.alloc(), first, second)?;
        outer(rt, name, &a, &b, room)?;
    }
    Ok(())
}
