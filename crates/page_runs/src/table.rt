// Tables of any size: the cells are numbered row by row. Of ten cells the ninth is the largest number, and the tenth is empty.
use run_cases::image;
use std::alloc::{AllocError, Global};

// The cell at an index among the cells. Its kind, and a column's, is written out, so that the cases are independent of the code under test.
fn cell(index: u32) -> u32 {
    match index % 10 {
        9 => 0,
        8 => 0x7fff_ffff,
        _ => 0x4000_0000 | index % 0x10000,
    }
}

// The column word at an index among the columns: ids fall from 65,535 on, and every third column is marked.
fn column(index: u32) -> u32 {
    let word = 0x8000_ffff - index % 16;
    if index % 3 == 1 {
        word | 0x2000_0000
    } else {
        word
    }
}

// The image of a table of so many rows and columns.
pub(crate) fn image(alloc: Global, rows: u32, columns: u32) -> Result<Vec<u32>, AllocError> {
    let cells = rows.saturating_mul(columns);
    image::collect(alloc, (0..columns).map(column), (0..cells).map(cell))
}
