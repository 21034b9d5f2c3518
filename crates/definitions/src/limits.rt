// The limits of document 01 on tables, unions and sets, and of the requests, each by name, and here alone. specs/Limits has the same for
// the contracts.

// The columns of a table, and of a union.
pub const MAX_COLUMNS: usize = 16;

// The ids of two tables.
pub const MAX_IDS: usize = 2 * MAX_COLUMNS;

// The rows of a source table, and of T.
pub const MAX_ROWS: usize = 32;

pub const MAX_UNION_ROWS: usize = 2 * MAX_ROWS;

// The maximal sets that complement union lists.
pub const MAX_SETS: usize = 1024;

// The rows of a table that is stored, as a fused table may have them, and put on pages (request A3).
pub const MAX_STORED_ROWS: usize = 1024;

// The words of a record of the set list: those that mark positions, and all.
pub const MARK_WORDS: usize = 3;

pub const SET_WIDTH: usize = MARK_WORDS + 1;

// The positions that a mark word holds.
pub const MARKS_PER_WORD: usize = 30;
