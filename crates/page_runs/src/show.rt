// A page of a table, and the answer of the call, as lines.
use crate::table;
use run_cases::print;
use std::io;

// How much is printed of a page.
#[derive(Clone, Copy)]
pub(crate) enum Shown {
    // The first three lines.
    Top,
    Whole,
}

// What every byte of a lent buffer holds before a call. No character of a page is that. `buffer` and this stand beside those of words in
// `run_cases`: a page is shown as it is, or its top alone, and words as numbers.
const FOUND: u8 = b'~';

// The bytes of three lines.
const TOP: usize = 243;

// The bytes that were written at the front of a buffer, and how many of the others are as found.
fn buffer(rt: &impl Print, bytes: &[u8], end: usize, shown: Shown) -> io::Result<()> {
    let Some((front, back)) = bytes.split_at_checked(end) else {
        return Ok(());
    };
    let lines = match shown {
        Shown::Top => &front[..front.len().min(TOP)],
        Shown::Whole => front,
    };
    rt.write_all(lines)?;
    print::rest(rt, back, &FOUND)
}

// Asks for a page of an image, with a buffer of some bytes.
pub(crate) fn page(
    rt: &(impl Print + AllocGlobal),
    image: &[u32],
    page: u32,
    room: usize,
    shown: Shown,
) -> io::Result<()> {
    let mut bytes = vec![in rt.alloc(); FOUND; room]?;
    print!(rt; "page {page}")?;
    let answer = pages::page(image, page, &mut bytes);
    print::answer(rt, answer.map(|pages| [pages]))?;
    buffer(rt, &bytes, answer.map_or(0, |_| pages::PAGE_BYTES), shown)
}

// Asks for a page of a table of so many rows and columns.
pub(crate) fn page_of(
    rt: &(impl Print + AllocGlobal),
    rows: u32,
    columns: u32,
    asked: u32,
    room: usize,
    shown: Shown,
) -> io::Result<()> {
    let image = table::image(rt.alloc(), rows, columns)?;
    print!(rt; "rows {rows} columns {columns} ")?;
    page(rt, &image, asked, room, shown)
}
