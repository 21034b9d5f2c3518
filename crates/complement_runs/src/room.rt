// Complement union and the room in its buffers.
use crate::Case;

const BOARD: &str = ":;<| 73- 7-X 95Y";

const PLANT: &str = ":=;| 723 91-";

// The result of board and plant takes 17 and 13 words.
pub(crate) const CASES: [Case; 6] = [
    ("complement of board and plant", BOARD, PLANT, 20, 16),
    ("complement, buffers exact", BOARD, PLANT, 17, 13),
    ("complement, table one short", BOARD, PLANT, 16, 13),
    ("complement, sets one short", BOARD, PLANT, 17, 12),
    ("complement, both one short", BOARD, PLANT, 16, 12),
    // 17 columns are refused before any room is asked for.
    ("complement of 17 columns", "12345678|", "9:;<=>?@A|", 0, 0),
];
