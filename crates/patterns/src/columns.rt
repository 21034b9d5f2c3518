// The columns' filled rows: for each column the set of the rows that are filled there, a bit a row. They tell of all rows at once which
// share a filled column with a row, and which are filled wherever it is.
ghost use Rattle.std.specs.Prelude.{◌≡◌, [], ◌≤◌, ◌<◌, length};
ghost use Rattle.rows.specs.Rows.{rows_of};
ghost use Rattle.patterns.specs.Columns.{blank_of, ColumnsOf, FilledRow};
ghost use Rattle.bitsets.specs.Bits.{word_bits};

use crate::is_filled;
use bitsets::ALL_ROWS;
use rows::Rows;

// All rows for an empty cell, none for a filled one.
pub fn blank(cell: u32) -> u64
    ensures { result ≡ blank_of cell }
{
    if is_filled(cell) { 0 } else { ALL_ROWS }
}

// Puts row j into the words of the columns where it is filled.
fn add_row(row: &[u32], j: usize, columns: &mut [u64])
    requires { (length row.now ≤ length columns.old) × (j < word_bits) }
    ensures { FilledRow row.now j columns.old columns.new }
{
    // By index: std says nothing of a slice after `zip` of its `iter_mut`.
    for (c, cell) in row.iter().enumerate() {
        columns[c] |= u64::from(is_filled(*cell)) << j;
    }
}

// Writes, for each column, the rows that are filled there. At first the words hold no row: who lends
// them makes them beside other lists.
pub fn fill_columns(rows: &Rows, columns: &mut [u64])
    requires { (rows.now.len ≤ word_bits) × ColumnsOf [] rows.now.width columns.old }
    ensures { ColumnsOf (rows_of rows.now) rows.now.width columns.new }
{
    for j in 0..rows.len {
        add_row(rows.row(j), j, columns);
    }
}
