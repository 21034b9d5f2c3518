// Tables about the ends of a page and of a band.
use crate::show::{self, Shown};
use std::io;

// Each case: rows, columns, page, and how much of it is shown.
const CASES: [(u32, u32, u32, Shown); 7] = [
    // 118 rows of 7 columns: two pages for six columns, and two for the seventh
    (118, 7, 0, Shown::Whole),
    (118, 7, 1, Shown::Whole),
    (118, 7, 2, Shown::Whole),
    (118, 7, 3, Shown::Whole),
    // no rows: a page a band
    (0, 16, 0, Shown::Top),
    (0, 16, 2, Shown::Whole),
    (0, 16, 3, Shown::Top),
];

// Each case: rows, columns, and the last page, which is shown with the one behind it.
const LAST: [(u32, u32, u32); 7] = [
    (1, 1, 0),
    (59, 6, 0),
    (60, 6, 1),
    (118, 12, 3),
    (119, 12, 5),
    (59, 13, 2),
    (1024, 16, 53),
];

pub(crate) fn run(rt: &(impl Print + AllocGlobal)) -> io::Result<()> {
    for (rows, columns, page, shown) in CASES {
        show::page_of(rt, rows, columns, page, 4860, shown)?;
    }
    for (rows, columns, last) in LAST {
        for page in [last, last.saturating_add(1)] {
            show::page_of(rt, rows, columns, page, 4860, Shown::Top)?;
        }
    }
    Ok(())
}
