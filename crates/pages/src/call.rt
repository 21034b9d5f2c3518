// The call that writes a page.
ghost use Rattle.std.specs.Prelude.{◌≡◌};
ghost use Rattle.definitions.specs.Answer.{page_says};
ghost use Rattle.definitions.specs.Page.{exists_outcome};
ghost use Rattle.definitions.specs.Promise.{PagePromise};

use crate::layout::{Stored, count_pages, put_page};
use definitions::{MAX_STORED_ROWS, Question, Refusal, Subject};
use text::Writer;

// "A page is 60 lines of exactly 80 characters and a byte 10, 4,860 bytes."
pub const PAGE_BYTES: usize = 4860;

// Puts the further questions of page n, for a buffer of so many bytes; how many pages the image has.
fn check_page(image: Stored, n: usize, room: usize) -> Result<usize, Refusal>
    ensures { page_says result ≡ exists_outcome image.entry.words.now n room }
{
    let pages = count_pages(image);
    if pages <= n {
        return Err(Refusal::from(Question::Page));
    }
    if room < PAGE_BYTES {
        return Err(Refusal::from(Question::PageRoom));
    }
    Ok(pages)
}

// Writes a page of the image, counted from 0, over the front of the buffer, or refuses and changes nothing.
pub fn page(image: &[u32], page: u32, bytes: &mut [u8]) -> Result<usize, Refusal>
    ensures { PagePromise image.now page bytes.old (page_says result) bytes.new }
{
    let n = page as usize;
    let image = images::accept::<MAX_STORED_ROWS>(image, Subject::First)?;
    let pages = check_page(image, n, bytes.len())?;
    put_page(image, n, &mut Writer::new(bytes));
    Ok(pages)
}
