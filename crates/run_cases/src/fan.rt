// The image of the fan, a table with 1,024 maximal sets: 20 rows of 11 columns.
use crate::image;
use std::alloc::{AllocError, Global};

const ROWS: u32 = 20;

const COLUMNS: u32 = 11;

// The cell of a row and a column: 1 in column 0, and in each of ten further columns one row with 1 and one with 2.
fn cell(row: u32, column: u32) -> u32 {
    if column == 0 {
        0x4000_0001
    } else if column == row / 2 + 1 {
        0x4000_0001 + row % 2
    } else {
        0
    }
}

pub fn image(alloc: Global) -> Result<Vec<u32>, AllocError> {
    let columns = (0..COLUMNS).map(|id| 0x8000_0000 | id);
    let cells = (0..ROWS * COLUMNS).map(|k| cell(k / COLUMNS, k % COLUMNS));
    image::collect(alloc, columns, cells)
}
