// The rows of an image, widened to the columns of a union.
ghost use Rattle.std.specs.Prelude.{◌≡◌, map, ℕ, ◌≤◌, ◌<◌, length};
ghost use Rattle.definitions.specs.Limits.{max_ids};
ghost use Rattle.definitions.specs.Word.{id_of};
ghost use Rattle.definitions.specs.Image.{image_ids};
ghost use Rattle.definitions.specs.Statements.{Member};
ghost use Rattle.tables.specs.UnionIds.{indices_in, scattered, in_order};
ghost use Rattle.tables.specs.Table.{Source, EmptyFor, Widened};

use crate::Table;
use crate::columns::smaller;
use definitions::MAX_ROWS;
use images::Image;

// Where each column word's id stands among the union's ids, once these are in order. They are written by their place, since std says
// nothing of what a slice holds after a `zip` of its `iter_mut`.
fn column_indices(columns: &[u32], union: &[u32], indices: &mut [usize])
    requires { (length indices.old ≡ length columns.now) × (length union.now ≤ max_ids) }
    ensures { indices.new ≡ indices_in union.now (map id_of columns.now) }
{
    for (j, w) in columns.iter().enumerate() {
        indices[j] = smaller(union, words::id(*w));
    }
}

// Writes each cell of a row at its index. With `zip` in place of the count, widening took 21 % more instructions.
fn widen_row(row: &[u32], indices: &[usize], cells: &mut [u32])
    requires { (length row.now ≤ length indices.now)
        × ((p : ℕ) → Member p indices.now → p < length cells.old) }
    ensures { cells.new ≡ scattered cells.old indices.now row.now }
{
    for (j, cell) in row.iter().enumerate() {
        cells[indices[j]] = *cell;
    }
}

// Writes the rows of an accepted image, each cell at its index, over empty cells.
fn widen_rows(image: Image<'_, MAX_ROWS>, all: &[u32], indices: &[usize], cells: &mut [u32])
    requires { Source image.words.now all.now
        × (indices.now ≡ indices_in (in_order all.now) (image_ids image.words.now))
        × EmptyFor image.words.now all.now cells.old }
    ensures { Widened image.entry.words.now all.now cells.new }
{
    let width = all.len();
    // Not by chunks_exact_mut: a row may have no cell, and std says nothing of what it leaves.
    for i in 0..image.rows() {
        let at = i * width;
        let end = at + width;
        widen_row(image.row(i), indices, &mut cells[at..end]);
    }
}

// Writes the rows of an accepted image, widened to columns with these ids in order, over empty cells.
pub(crate) fn widen_image(image: Image<'_, MAX_ROWS>, all: &[u32], cells: &mut [u32])
    requires { Source image.words.now all.now × EmptyFor image.words.now all.now cells.old }
    ensures { Widened image.entry.words.now all.now cells.new }
{
    let mut indices = [0usize; Table::MAX_COLUMNS];
    let columns = image.column_words();
    let indices = &mut indices[..columns.len()];
    column_indices(columns, all, indices);
    widen_rows(image, all, indices, cells);
}
