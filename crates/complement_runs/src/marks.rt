// Complement union of tables with marked columns.
use crate::cases;
use std::io;

// Each case: its name, and its two tables. All are lent the same room.
const CASES: [(&str, &str, &str); 10] = [
    // The devices in column 10 have the guest in column 13, and so has the address in column 12; column 11 is empty.
    ("devices, no column marked", ":;=| 7-2 8-2", "<=| Y2"),
    ("devices marked", "j;=| 7-2 8-2", "<=| Y2"),
    ("guest marked by the second table", ":;=| 7-2 8-2", "<m| Y2"),
    (
        "devices and guest marked, each by a table",
        "j;=| 7-2 8-2",
        "<m| Y2",
    ),
    ("an empty column marked", ":k=| 7-2 8-2", "<=| Y2"),
    // A marked column and what else joins rows.
    (
        "one pair by a marked column, one by another",
        "a2| 12",
        "1234| 1-3- -2-4",
    ),
    (
        "a marked number shared, and others",
        "a23| 12- 14-",
        "1234| 1--5 -2-6",
    ),
    (
        "marked by both, at other places",
        "ba| 12 1-",
        "3ba| 51- 6-2",
    ),
    ("marked, no rows", "ab|", "bc|"),
    ("a marked column that one table lacks", "a2| 12", "23| 25"),
];

pub(crate) fn run(rt: &(impl Print + AllocGlobal)) -> io::Result<()> {
    for (name, first, second) in CASES {
        cases(rt, &[(name, first, second, 20, 16)])?;
    }
    Ok(())
}
