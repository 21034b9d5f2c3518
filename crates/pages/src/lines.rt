// The lines of a page: 80 characters and byte 10.
ghost use Rattle.std.specs.Prelude.{ℕ, ◌≤◌, ◌<◌, ◌^◌, [], map, length};
ghost use Rattle.definitions.specs.Text.{decimal, id_text, cell_text};
ghost use Rattle.definitions.specs.Page.{cell_width, page_line, band_columns};
ghost use Rattle.pages.specs.Lines.{cells_text};
ghost use Rattle.text.specs.Writer.{HasRoom, Wrote};

use crate::fields::{CELL_WIDTH, flush_right};
use text::{Cell, Id, Number, Style, Writer};

// "lines of exactly 80 characters": "Characters 1–4 hold the row position".
const LINE_WIDTH: usize = 80;

const POSITION_WIDTH: usize = 4;

// What follows the position: the words in cells, the blanks behind them, and byte 10.
fn put_cells<S: Style<Value = u32>>(words: &[u32], out: &mut Writer)
    requires few { length words.now ≤ band_columns }
    requires narrow { (w : ℕ) → length (S.shown w) ≤ cell_width }
    requires room { HasRoom out.old (cells_text S.shown words.now) }
    ensures { Wrote out.old (cells_text S.shown words.now) out.new }
{
    for word in words {
        flush_right::<S>(*word, CELL_WIDTH, out);
    }
    out.blanks(LINE_WIDTH - (POSITION_WIDTH + words.len() * CELL_WIDTH));
    out.newline();
}

// The line of the ids of column words. Without columns it is a blank line.
pub(crate) fn id_line(columns: &[u32], out: &mut Writer)
    requires few { length columns.now ≤ band_columns }
    requires room { HasRoom out.old (page_line [] (map id_text columns.now)) }
    ensures { Wrote out.old (page_line [] (map id_text columns.now)) out.new }
{
    out.blanks(POSITION_WIDTH);
    put_cells::<Id>(columns, out);
}

// The line of a row: its position and its cells.
pub(crate) fn row_line(position: usize, cells: &[u32], out: &mut Writer)
    requires few { (position < 10 ^ 4) × (length cells.now ≤ band_columns) }
    requires room { HasRoom out.old (page_line (decimal position) (map cell_text cells.now)) }
    ensures { Wrote out.old (page_line (decimal position) (map cell_text cells.now)) out.new }
{
    flush_right::<Number>(position, POSITION_WIDTH, out);
    put_cells::<Cell>(cells, out);
}
