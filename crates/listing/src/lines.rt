// Single lines: fields with a space between them, and byte 10 at the end.
ghost use Rattle.std.specs.Prelude.{◌∷◌, map};
ghost use Rattle.definitions.specs.Listing.{line, row_line, ragged_line, refused_line};
ghost use Rattle.definitions.specs.Refusal.{question_number, table_number};
ghost use Rattle.text.specs.Writer.{HasRoom, Wrote};

use definitions::Refusal;
use text::{Cell, Number, Style, Writer};

// The line of a title and values.
pub(crate) fn line<S: Style>(title: &[u8], values: &[S::Value], out: &mut Writer)
    requires { HasRoom out.old (line (title.now ∷ map S.shown values.now)) }
    ensures { Wrote out.old (line (title.now ∷ map S.shown values.now)) out.new }
{
    out.text(title);
    out.fields::<S>(values);
    out.newline();
}

// A row's line: its cells.
pub(crate) fn row_line(cells: &[u32], out: &mut Writer)
    requires { HasRoom out.old (row_line cells.now) }
    ensures { Wrote out.old (row_line cells.now) out.new }
{
    let [first, rest @ ..] = cells else {
        return out.newline();
    };
    Cell::put(*first, out);
    out.fields::<Cell>(rest);
    out.newline();
}

// The line of a file whose bytes make no whole number of words: `ragged`, and then its name as a title without values.
pub fn ragged_line(name: &[u8], out: &mut Writer)
    requires { HasRoom out.old (ragged_line name.now) }
    ensures { Wrote out.old (ragged_line name.now) out.new }
{
    out.text(b"ragged ");
    line::<Number>(name, &[], out);
}

// The line of a refusal's number, and then the title `table` with its table. Public, beside `refusal_line`: the program's texts of
// document 01 are told by numbers.
pub fn refused_line(number: u32, table: u32, out: &mut Writer)
    requires { HasRoom out.old (refused_line number table) }
    ensures { Wrote out.old (refused_line number table) out.new }
{
    out.text(b"refused ");
    out.number(number as usize);
    line::<Number>(b" table", &[table as usize], out);
}

// The line of a refusal.
pub fn refusal_line(refusal: Refusal, out: &mut Writer)
    requires { HasRoom out.old (refused_line (question_number refusal.question) (table_number refusal.subject)) }
    ensures { Wrote out.old (refused_line (question_number refusal.question) (table_number refusal.subject)) out.new }
{
    refused_line(refusal.question.number(), refusal.subject.number(), out);
}
