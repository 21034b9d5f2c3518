// Complement union of tables with the cell `none`, which stands as `!`.
use crate::Case;

pub(crate) const CASES: [Case; 8] = [
    ("none is shared", "123| !2-", "123| !-3", 12, 8),
    ("none, 0 and empty", "123| !2- -23", "123| 0-3", 12, 12),
    (
        "none alone, beside 0 and empty",
        "13| !-",
        "13| -- 0-",
        12,
        16,
    ),
    ("none and a number", "13| !1", "13| z1", 12, 16),
    ("none in a marked column", "a23| !2-", "123| !-3", 12, 8),
    (
        "none beside a marked column",
        "1b3| !2-",
        "123| !-3",
        12,
        12,
    ),
    (
        "none taken from one of three",
        "1234| 1!-- 1-3-",
        "1234| 1--4",
        12,
        8,
    ),
    ("a row of none alone", "12| !! -!", "21| !-", 12, 16),
];
