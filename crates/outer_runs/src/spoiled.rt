// Outer union of spoiled tables. Before, each has two columns, one of them shared, and two rows: seven words.
use crate::outer;
use Change::{Length, Word};
use run_cases::change::{Change, changed};
use run_cases::image;
use std::io;

// Outer union of the two tables, each spoiled in its ways.
fn both(
    rt: &(impl Print + AllocGlobal),
    name: &str,
    first: &[Change],
    second: &[Change],
) -> io::Result<()> {
    let (a, b) = image::pair(rt.alloc(), "12| 34 5-", "32| 64 7-")?;
    let a = changed(rt.alloc(), &a, first)?;
    let b = changed(rt.alloc(), &b, second)?;
    outer(rt, name, &a, &b, 16)
}

// Each case of one table spoiled in one way.
const EACH: [(&str, Change); 23] = [
    // heads
    ("no words", Length(0)),
    ("header of kind 2", Word(0, 0x8008_0002)),
    ("bit 5 of the header", Word(0, 0xc008_0022)),
    ("bit 17 of the header", Word(0, 0xc00a_0002)),
    ("no columns", Word(0, 0xc008_0000)),
    ("17 columns in the header", Word(0, 0xc008_0011)),
    ("33 rows in the header", Word(0, 0xc084_0002)),
    ("3 rows in the header", Word(0, 0xc00c_0002)),
    // words
    ("one word short", Length(6)),
    ("one word long", Length(8)),
    ("column of kind 1", Word(2, 0x4000_0002)),
    ("bit 16 of a column", Word(1, 0x8001_0001)),
    ("bit 28 of a column", Word(2, 0x9000_0002)),
    ("bit 29 of a column, its mark", Word(2, 0xa000_0002)),
    ("bits 29 and 28 of a column", Word(2, 0xb000_0002)),
    ("column given twice", Word(1, 0x8000_0002)),
    ("column given twice, once marked", Word(1, 0xa000_0002)),
    ("cell of kind 2", Word(6, 0x8000_0001)),
    ("cell of kind 3", Word(3, 0xc000_0001)),
    ("cell of kind 0, not zero", Word(5, 1)),
    ("cell of kind 2 with bit 29", Word(4, 0xa000_0000)),
    ("cell of kind 3, all other bits zero", Word(5, 0xc000_0000)),
    ("the cell none", Word(6, 0x8000_0000)),
];

pub(crate) fn run(rt: &(impl Print + AllocGlobal)) -> io::Result<()> {
    both(rt, "sound", &[], &[])?;
    both(rt, "sound", &[], &[])?;
    for (name, change) in EACH {
        both(rt, name, &[change], &[])?;
        both(rt, name, &[], &[change])?;
    }
    both(
        rt,
        "7 in the first, 1 in the second",
        &[Word(6, 1)],
        &[Word(0, 0)],
    )?;
    both(
        rt,
        "7 in the first, 4 in the second",
        &[Word(6, 1)],
        &[Length(6)],
    )?;
    both(
        rt,
        "5 in the second, 1 in the first",
        &[Word(0, 0)],
        &[Word(1, 0)],
    )?;
    both(rt, "2 and 3 in the first", &[Word(0, 0xc084_0000)], &[])?;
    both(rt, "4 and 5 in the second", &[], &[Length(6), Word(1, 0)])
}
