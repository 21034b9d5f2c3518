// All pages of an image, page after page.
ghost use Rattle.definitions.specs.Limits.{max_stored_rows};
ghost use Rattle.definitions.specs.Claims.{Passed};
ghost use Rattle.definitions.specs.Page.{all_pages};
ghost use Rattle.lists.specs.Written.{Fits, Written};

use crate::layout::{Stored, count_pages, put_page};
use text::Writer;

// All pages of an accepted image over the front of the buffer; where they end.
pub fn put_all(image: &[u32], out: &mut [u8]) -> usize
    requires { Passed max_stored_rows image.now × Fits out.old 0 (all_pages image.now) }
    ensures { Written out.old 0 (all_pages image.now) out.new result }
{
    let image = Stored { words: image };
    let mut pages = Writer::new(out);
    for n in 0..count_pages(image) {
        put_page(image, n, &mut pages);
    }
    pages.length()
}
