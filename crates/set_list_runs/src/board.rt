// The list of board and plant, and what it becomes by some changes.
use crate::read;
use Change::{Length, Word};
use run_cases::change::{Change, changed};
use std::io;

// The sets of board and plant: {0, 1}, {0, 2}, {3, 4}.
const LIST: [u32; 13] = [
    0xc00c_0004,
    0x8000_0003,
    0x8000_0000,
    0x8000_0000,
    0x4000_0000,
    0x8000_0005,
    0x8000_0000,
    0x8000_0000,
    0x4000_0001,
    0x8000_0018,
    0x8000_0000,
    0x8000_0000,
    0x4000_0002,
];

// A case: its name, what is changed in the list, the rows that the sets are of, and the words of the buffer.
type Case = (&'static str, &'static [Change], u32, usize);

// Lists as one works them out on paper.
const PAPER: [Case; 4] = [
    ("sets of board and plant", &[], 5, 15),
    ("no sets, no rows", &[Word(0, 0xc000_0004), Length(1)], 0, 3),
    ("{0, 1} before {0}", &[Word(5, 0x8000_0001)], 5, 15),
    (
        "{0, 1, 59} before {0, 1}",
        &[Word(2, 0xa000_0000), Word(5, 0x8000_0003)],
        64,
        15,
    ),
];

// Row counts, and the greatest position of a joined row.
const ROWS: [Case; 6] = [
    (
        "one row",
        &[Word(0, 0xc004_0004), Word(1, 0x8000_0001), Length(5)],
        1,
        4,
    ),
    ("no rows, position 0", &[], 0, 15),
    ("30 rows, position 30", &[Word(10, 0x8000_0001)], 30, 15),
    ("64 rows, position 63", &[Word(11, 0x8000_0008)], 64, 15),
    ("joined row 1,023", &[Word(12, 0x4000_03ff)], 5, 15),
    ("joined row 1,024", &[Word(12, 0x4000_0400)], 5, 15),
];

// Lists that are refused with 12 and with 13, for one cause each: of the list, and of its records.
const NUMBERS: [Case; 13] = [
    ("no words", &[Length(0)], 5, 15),
    ("one word less", &[Length(12)], 5, 15),
    ("65 rows", &[], 65, 15),
    ("4,294,967,295 rows", &[], 0xffff_ffff, 15),
    ("header of kind 2", &[Word(0, 0x800c_0004)], 64, 15),
    ("header with bit 17", &[Word(0, 0xc00e_0004)], 64, 15),
    ("width 10", &[Word(0, 0xc00c_000a)], 64, 15),
    ("two sets in the header", &[Word(0, 0xc008_0004)], 64, 15),
    ("first word of kind 0", &[Word(1, 0x0000_0003)], 64, 15),
    ("third word of kind 3", &[Word(11, 0xc000_0000)], 64, 15),
    ("row word of kind 2", &[Word(12, 0x8000_0002)], 64, 15),
    ("bit 4 of a third word", &[Word(3, 0x8000_0010)], 64, 15),
    ("an empty set", &[Word(5, 0x8000_0000)], 64, 15),
];

// The order of sets, number 14.
const ORDER: [Case; 5] = [
    ("{0} before {0, 2}", &[Word(1, 0x8000_0001)], 5, 15),
    (
        "{0, 1} before {0, 1, 59}",
        &[Word(5, 0x8000_0003), Word(6, 0xa000_0000)],
        64,
        15,
    ),
    (
        "{0, 1} before {0, 1, 60}",
        &[Word(5, 0x8000_0003), Word(7, 0x8000_0001)],
        64,
        15,
    ),
    (
        "a set twice, other joined rows",
        &[Word(1, 0x8000_0005)],
        5,
        15,
    ),
    ("a set twice, not together", &[Word(9, 0x8000_0003)], 5, 15),
];

// The order of the checks: number 10, and lists that fail two checks.
const CHECKS: [Case; 4] = [
    ("one word short", &[], 5, 11),
    ("12 and 13", &[Word(9, 0x8000_0000)], 65, 15),
    (
        "14, and 13 behind it",
        &[Word(1, 0x8000_0008), Word(9, 0x8000_0000)],
        5,
        15,
    ),
    ("14 and 10", &[Word(1, 0x8000_0005)], 5, 0),
];

fn cases(rt: &(impl Print + AllocGlobal), cases: &[Case]) -> io::Result<()> {
    for (name, changes, rows, room) in cases {
        let list = changed(rt.alloc(), &LIST, *changes)?;
        read(rt, *name, &list, *rows, *room)?;
    }
    Ok(())
}

pub(crate) fn run(rt: &(impl Print + AllocGlobal)) -> io::Result<()> {
    cases(rt, &PAPER)?;
    cases(rt, &ROWS)?;
    cases(rt, &NUMBERS)?;
    cases(rt, &ORDER)?;
    cases(rt, &CHECKS)
}
