// Which columns and rows stand on a page, and how many pages there are.
ghost use Rattle.std.specs.Prelude.{◌≡◌, ◌*◌, ◌≤◌, ◌<◌, length};
ghost use Rattle.definitions.specs.Limits.{max_stored_rows};
ghost use Rattle.definitions.specs.Image.{column_count};
ghost use Rattle.definitions.specs.Page.{in_band, band_columns, line_at, band_page, band_pages, page_count, page};
ghost use Rattle.text.specs.Writer.{HasRoom, Wrote};

use crate::lines::{id_line, row_line};
use definitions::MAX_STORED_ROWS;
use images::Image;
use text::Writer;

// "Columns go in bands of six": "59 rows a page".
const BAND_COLUMNS: usize = 6;

const PAGE_ROWS: usize = 59;

// An accepted image of a table that may be stored: of up to 1,024 rows.
pub(crate) type Stored<'a> = Image<'a, MAX_STORED_ROWS>;

// The words of a band, of those of a row or of the columns.
fn in_band(words: &[u32], band: usize) -> &[u32]
    requires { band_columns * band ≤ length words.now }
    ensures { result.now ≡ in_band band words.now }
{
    let rest = &words[BAND_COLUMNS * band..];
    &rest[..rest.len().min(BAND_COLUMNS)]
}

// A band of an image's columns.
#[derive(Clone, Copy)]
struct Band<'a> {
    image: Stored<'a>,
    number: usize,
    ghost starts: { band_columns * number < column_count image.words.now },
}

impl Band<'_> {
    // The line of the row at a position; a blank line where there is no such row.
    fn put_line(&self, position: usize, out: &mut Writer)
        requires { HasRoom out.old (line_at self.now.image.words.now self.now.number position) }
        ensures { Wrote out.old (line_at self.now.image.words.now self.now.number position) out.new }
    {
        if self.image.rows() <= position {
            return id_line(&[], out);
        }
        let cells = in_band(self.image.row(position), self.number);
        row_line(position, cells, out);
    }

    // The page that holds the rows from 59 × part on.
    fn put_part(&self, part: usize, out: &mut Writer)
        requires few { part ≤ max_stored_rows }
        requires room { HasRoom out.old (band_page self.now.image.words.now self.now.number part) }
        ensures { Wrote out.old (band_page self.now.image.words.now self.now.number part) out.new }
    {
        id_line(in_band(self.image.column_words(), self.number), out);
        for i in 0..PAGE_ROWS {
            self.put_line(PAGE_ROWS * part + i, out);
        }
    }
}

// How many pages a band of the image takes: one where there are no rows.
fn band_pages(image: Stored) -> usize
    ensures { result ≡ band_pages image.entry.words.now }
{
    image.rows().div_ceil(PAGE_ROWS).max(1)
}

// How many pages the image takes.
pub(crate) fn count_pages(image: Stored) -> usize
    ensures { result ≡ page_count image.entry.words.now }
{
    image.columns().div_ceil(BAND_COLUMNS) * band_pages(image)
}

// A page of the image, counted from 0: all parts of a band come before the next band.
pub(crate) fn put_page(image: Stored, n: usize, out: &mut Writer)
    requires exists { n < page_count image.words.now }
    requires room { HasRoom out.old (page image.words.now n) }
    ensures { Wrote out.old (page image.entry.words.now n) out.new }
{
    let parts = band_pages(image);
    let band = Band {
        image,
        number: n / parts,
    };
    band.put_part(n % parts, out);
}
