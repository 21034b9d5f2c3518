// Calls that are refused, and buffers about the length of a page.
use crate::show::{self, Shown};
use crate::table;
use Change::{Length, Word};
use run_cases::change::{Change, changed};
use std::io;

// Each case: rows, columns, page, and the bytes of the buffer.
const CASES: [(u32, u32, u32, usize); 7] = [
    // too many rows, before a page that doesn't exist and a buffer that is too short
    (1025, 16, 60, 0),
    // a page that doesn't exist, by itself and before a buffer that is too short
    (3, 4, 1, 4860),
    (3, 4, 1, 4859),
    (3, 4, 4294967295, 4860),
    // a buffer that is too short, and one that is longer than a page
    (3, 4, 0, 4859),
    (3, 4, 0, 0),
    (3, 4, 0, 4861),
];

// Each case: its name, and how a table of 1,024 rows of 16 columns is spoiled.
const SPOILED: [(&str, Change); 9] = [
    ("no words", Length(0)),
    ("17 columns in the header", Word(0, 0xd000_0011)),
    ("1,025 rows in the header", Word(0, 0xd004_0010)),
    ("one word short", Length(16400)),
    ("one word long", Length(16402)),
    ("bit 16 of a column", Word(2, 0x8001_fffe)),
    ("column given twice, once marked", Word(2, 0xa000_ffff)),
    ("last cell of kind 3", Word(16400, 0xc000_0001)),
    ("last cell of kind 2, not none", Word(16400, 0x8000_0001)),
];

pub(crate) fn run(rt: &(impl Print + AllocGlobal)) -> io::Result<()> {
    for (rows, columns, page, room) in CASES {
        show::page_of(rt, rows, columns, page, room, Shown::Top)?;
    }
    let image = table::image(rt.alloc(), 1024, 16)?;
    for (name, change) in SPOILED {
        let image = changed(rt.alloc(), &image, &[change])?;
        print!(rt; "{name}, ")?;
        show::page(rt, &image, 0, 4860, Shown::Top)?;
    }
    Ok(())
}
