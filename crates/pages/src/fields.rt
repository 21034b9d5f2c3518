// The fields of a line: a value flushed right among blanks.
ghost use Rattle.std.specs.Prelude.{ℕ, ◌≤◌, length};
ghost use Rattle.definitions.specs.Page.{cell_width, flush_right};
ghost use Rattle.text.specs.Writer.{HasRoom, Wrote};

use text::{Style, Writer};

// "cells of 12 characters"; no field is wider.
pub(crate) const CELL_WIDTH: usize = 12;

// A value flushed right in `width` characters.
pub(crate) fn flush_right<S: Style>(value: S::Value, width: usize, out: &mut Writer)
    requires narrow { (length (S.shown value) ≤ width) × (width ≤ cell_width) }
    requires room { HasRoom out.old (flush_right width (S.shown value)) }
    ensures { Wrote out.old (flush_right width (S.shown value)) out.new }
{
    let mut text = [0u8; CELL_WIDTH];
    let mut field = Writer::new(&mut text);
    S::put(value, &mut field);
    out.flush_right(field.written(), width);
}
