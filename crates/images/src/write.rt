// The writing of a table image.
ghost use Rattle.std.specs.Prelude.{◌≡◌, ◌∷◌, ◌+◌, ◌*◌, ◌≤◌, ◌<◌, ◌^◌, length};
ghost use Rattle.std.proofs.Math.Seq.{paste};
ghost use Rattle.definitions.specs.Word.{header_word};
ghost use Rattle.images.specs.Writing.{chosen, image_size, Writable, WrittenImage, PutImage};

use definitions::{Question, Refusal};
use rows::Rows;

// Writes the header and the column words over the front of the buffer.
fn write_head(column_words: &[u32], rows: usize, buffer: &mut [u32])
    requires { (length column_words.now < length buffer.old) × (rows < 2 ^ 12) × (length column_words.now < 2 ^ 5) }
    ensures { buffer.new ≡ paste buffer.old 0
        (header_word rows (length column_words.now) ∷ column_words.now) (1 + length column_words.now) }
{
    buffer[0] = words::header_word(rows as u32, column_words.len() as u32);
    lists::write_over(column_words, buffer, 1);
}

// Writes the image of the rows at the indices, in the columns of the column words, over the front of the buffer; how many of their cells are
// filled. Rows and indices come apart, as their callers have them: a struct of both would be made at each call, to be taken apart here.
pub fn write_image(column_words: &[u32], rows: &Rows, order: &[u32], buffer: &mut [u32]) -> usize
    requires { Writable column_words.now rows.now order.now
        × (image_size column_words.now order.now ≤ length buffer.old) }
    ensures { WrittenImage column_words.now (chosen rows.now order.now)
        buffer.old buffer.new result }
{
    let start = 1 + column_words.len();
    let end = start + order.len() * column_words.len();
    write_head(column_words, order.len(), buffer);
    rows.write_rows(order, &mut buffer[start..]);
    patterns::count_cells(&buffer[start..end])
}

// The words of an image that was written, and how many of its cells are filled.
#[derive(Clone, Copy, Debug, PartialEq, Eq)]
pub struct Written {
    pub words: usize,
    pub filled: usize,
}

// Puts question 10, and writes the image if the buffer has room for it.
pub fn put_image(
    column_words: &[u32],
    rows: &Rows,
    order: &[u32],
    buffer: &mut [u32],
) -> Result<Written, Refusal>
    requires { Writable column_words.now rows.now order.now }
    ensures { PutImage column_words.now (chosen rows.now order.now) (length order.now)
        buffer.old result buffer.new }
{
    // The size stands here, in `write_image`, in `check_image` and in complement union: it is one sum, of what each has at hand.
    let words = 1 + column_words.len() + order.len() * column_words.len();
    if buffer.len() < words {
        return Err(Refusal::from(Question::TableRoom));
    }
    let filled = write_image(column_words, rows, order, buffer);
    Ok(Written { words, filled })
}
