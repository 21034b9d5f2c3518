// The lines of a table: its title, and a line for each row.
ghost use Rattle.std.specs.Prelude.{◌++◌};
ghost use Rattle.definitions.specs.Listing.{title_line};
ghost use Rattle.definitions.specs.Program.{row_lines};
ghost use Rattle.listing.specs.Lines.{union_lines};
ghost use Rattle.rows.specs.Rows.{rows_of};
ghost use Rattle.text.specs.Writer.{HasRoom, Wrote};

use crate::lines::{line, row_line};
use rows::Rows;
use text::{Id, Number, Writer};

// A line for each row; without columns, an empty one.
fn row_lines(rows: &Rows, out: &mut Writer)
    requires { HasRoom out.old (row_lines (rows_of rows.now)) }
    ensures { Wrote out.old (row_lines (rows_of rows.now)) out.new }
{
    for i in 0..rows.len {
        row_line(rows.row(i), out);
    }
}

// A title with its numbers, and the rows.
pub fn table_lines(title: &[u8], numbers: &[usize], rows: &Rows, out: &mut Writer)
    requires { HasRoom out.old (title_line title.now numbers.now ++ row_lines (rows_of rows.now)) }
    ensures { Wrote out.old (title_line title.now numbers.now ++ row_lines (rows_of rows.now)) out.new }
{
    line::<Number>(title, numbers, out);
    row_lines(rows, out);
}

// The columns, the title of T, and its rows.
pub fn union_lines(column_words: &[u32], rows: &Rows, filled: usize, out: &mut Writer)
    requires { HasRoom out.old (union_lines column_words.now (rows_of rows.now) filled) }
    ensures { Wrote out.old (union_lines column_words.now (rows_of rows.now) filled) out.new }
{
    line::<Id>(b"columns", column_words, out);
    table_lines(b"union", &[rows.len, filled], rows, out);
}
