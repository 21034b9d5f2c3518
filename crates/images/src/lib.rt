// A table image: the questions 1 to 7 that are put to it, the parts of an accepted one, and its writing.
#![tactic(auto)]

ghost use Rattle.std.specs.Prelude.{◌≡◌, ◌<◌, ◌^◌, map, eqb, Ok};
ghost use Rattle.definitions.specs.Lists.{all, any, distinct};
ghost use Rattle.definitions.specs.Word.{id_of, is_cell};
ghost use Rattle.definitions.specs.Image.{is_column};
ghost use Rattle.definitions.specs.Questions.{image_number};
ghost use Rattle.definitions.specs.Refusal.{number_said, table_number};
ghost use Rattle.definitions.specs.Answer.{Outcome, unless, or_refused};
ghost use Rattle.images.specs.declared.image.Image.{Image};

use definitions::{MAX_COLUMNS, Question, Refusal, Subject};

mod image;
mod write;

pub use image::Image;
pub use write::{Written, put_image, write_image};

// Whether a word may stand for a column.
fn is_column(w: u32) -> bool
    ensures { result ≡ is_column w }
{
    words::kind(w) == 2 && words::column_spare(w) == 0
}

// Whether every word may stand for a column.
fn all_columns(w: &[u32]) -> bool
    ensures { result ≡ all is_column w.now }
{
    w.iter().all(|word| is_column(*word))
}

// Whether every word may stand as a cell. Every word is looked at: several at a time are quicker than to stop at the first wrong one. By `all`
// outer union takes 13 to 28 % more instructions.
fn all_cells(w: &[u32]) -> bool
    ensures { result ≡ all is_cell w.now }
{
    let mut fit = true;
    for word in w {
        fit &= words::is_cell(*word);
    }
    fit
}

// Whether a column word of the list has the id.
fn has_id(w: &[u32], id: u32) -> bool
    ensures { result ≡ any (eqb id) (map id_of w.now) }
{
    w.iter().any(|word| id == words::id(*word))
}

// Whether no two column words have the same id.
fn distinct_ids(w: &[u32]) -> bool
    ensures { result ≡ distinct eqb (map id_of w.now) }
{
    // Not by `all`, whose closure may be asked of any index.
    for (i, word) in w.iter().enumerate() {
        if has_id(&w[i + 1..], words::id(*word)) {
            return false;
        }
    }
    true
}

// Puts the questions 1 to 7 to an image, of at most so many rows.
pub fn check_image(image: &[u32], max_rows: u32) -> Result<(), Question>
    ensures { number_said result ≡ image_number max_rows image.now }
{
    if image.len() == 0 {
        return Err(Question::Header);
    }
    let h = image[0];
    if !words::is_header(h) {
        return Err(Question::Header);
    }
    let columns = words::columns(h) as usize;
    if columns < 1 {
        return Err(Question::Columns);
    }
    if MAX_COLUMNS < columns {
        return Err(Question::Columns);
    }
    let rows = words::rows(h);
    if max_rows < rows {
        return Err(Question::Rows);
    }
    let cells = 1 + columns;
    if image.len() != cells + rows as usize * columns {
        return Err(Question::Length);
    }
    if !all_columns(&image[1..cells]) {
        return Err(Question::ColumnWords);
    }
    if !distinct_ids(&image[1..cells]) {
        return Err(Question::Ids);
    }
    if !all_cells(&image[cells..]) {
        return Err(Question::Cells);
    }
    Ok(())
}

// Puts the questions 1 to 7 to one of a call's tables, of at most ROWS rows.
pub fn accept<const ROWS: usize>(
    image: &[u32],
    subject: Subject,
) -> Result<Image<'_, ROWS>, Refusal>
    requires { ROWS < 2 ^ 32 }
    ensures says { (rest : Outcome) → unless (image_number ROWS image.now) (table_number subject) rest ≡ or_refused result rest }
    ensures lends { (accepted : Image ROWS) → result ≡ Ok accepted → accepted.words.now ≡ image.now }
{
    check_image(image, ROWS as u32).map_err(|question| question.put_to(subject))?;
    Ok(Image { words: image })
}
