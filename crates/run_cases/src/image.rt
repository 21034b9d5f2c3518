// Table images from a short text: the columns, a bar, then the cells row by row. A byte stands for the number that it is above `0`, a `-`
// for the empty cell, a `!` for the cell `none`; spaces among the cells are passed over. Of the columns, a small letter stands for a marked
// one: `a` for that with id 1.
ghost use Rattle.std.specs.Iterator.{IsFinite};

use std::alloc::{AllocError, Global};

// The number that a byte stands for.
fn number(byte: u8) -> u32 {
    u32::from(byte.saturating_sub(b'0'))
}

// The column word of a byte.
fn column(byte: u8) -> u32 {
    match byte {
        b'a'..=b'z' => 0xa000_0000 | (u32::from(byte - b'a') + 1),
        _ => 0x8000_0000 | number(byte),
    }
}

// The cell of a byte.
fn cell(byte: u8) -> u32 {
    match byte {
        b'-' => 0,
        b'!' => 0x8000_0000,
        _ => 0x4000_0000 | number(byte),
    }
}

// The image of the columns and cells, as many rows as the cells fill. Kinds are written out, here and where cases are made, so that the
// cases are independent of the code under test.
pub fn of_words(alloc: Global, columns: &[u32], cells: &[u32]) -> Result<Vec<u32>, AllocError> {
    let width = columns.len();
    let rows = cells.len().checked_div(width).unwrap_or(0);
    let header = 0xc000_0000 | ((rows & 0xfff) as u32) << 18 | (width & 0x1f) as u32;
    let mut image = vec![in alloc; header]?;
    image.extend_from_slice(columns)?;
    image.extend_from_slice(cells)?;
    Ok(image)
}

// The same of columns and cells as they come.
pub fn collect<C: Iterator<Item = u32>, D: Iterator<Item = u32>>(
    alloc: Global,
    columns: C,
    cells: D,
) -> Result<Vec<u32>, AllocError>
    requires columns { C.Iterator.can_next columns × IsFinite (C.Iterator.remaining columns) }
    requires cells { D.Iterator.can_next cells × IsFinite (D.Iterator.remaining cells) }
{
    let columns: Vec<u32> = columns.collect(alloc)?;
    let cells: Vec<u32> = cells.collect(alloc)?;
    of_words(alloc, &columns, &cells)
}

// The image that a text describes.
pub fn of_text(alloc: Global, text: &str) -> Result<Vec<u32>, AllocError> {
    let (columns, cells) = text.split_once('|').unwrap_or((text, ""));
    let cells = cells.bytes().filter(|byte| *byte != b' ');
    collect(alloc, columns.bytes().map(column), cells.map(cell))
}

// The images of the two texts of a case.
pub fn pair(alloc: Global, first: &str, second: &str) -> Result<(Vec<u32>, Vec<u32>), AllocError> {
    Ok((of_text(alloc, first)?, of_text(alloc, second)?))
}
