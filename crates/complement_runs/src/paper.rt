// Complement union of few rows, as one works them out on paper.
use crate::Case;

pub(crate) const CASES: [Case; 6] = [
    ("complement of no rows", "12|", "23|", 8, 8),
    ("complement of one empty row", "12| --", "12|", 8, 8),
    (
        "complement, four rows around",
        "1234| 12-- -23-",
        "1234| --34 1--4",
        24,
        20,
    ),
    (
        "complement, three rows together",
        "123| 12- 1-3",
        "123| -23",
        12,
        8,
    ),
    (
        "complement, two sets of one joined row",
        "1234| 12-4 1-34",
        "1234| 12--",
        12,
        12,
    ),
    ("complement, number 0 joins", "123| 00- 0-1", "123|", 12, 8),
];
