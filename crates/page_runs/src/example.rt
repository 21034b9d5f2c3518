// The fused table of document 01, and a table with the cell `none`, each on its page.
use crate::show::{self, Shown};
use run_cases::image;
use std::io;

// The images by their texts: in the first, columns 10 to 13 and three rows, in the second, columns 10 to 12 and two rows.
pub(crate) fn run(rt: &(impl Print + AllocGlobal)) -> io::Result<()> {
    let image = image::of_text(rt.alloc(), ":;<=|73X- 73X2 95Y1")?;
    print!(rt; "the fused table of document 01: ")?;
    show::page(rt, &image, 0, 5000, Shown::Whole)?;
    let image = image::of_text(rt.alloc(), ":;<|!0- -!!")?;
    print!(rt; "none, 0 and empty: ")?;
    show::page(rt, &image, 0, 4860, Shown::Top)
}
