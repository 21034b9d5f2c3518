// The lines of the set list.
ghost use Rattle.std.specs.Prelude.{◌++◌, ◌^◌, ◌<◌, ◌≤◌, length};
ghost use Rattle.definitions.specs.Limits.{mark_words};
ghost use Rattle.definitions.specs.Reading.{positions_in};
ghost use Rattle.definitions.specs.Listing.{sets_title};
ghost use Rattle.listing.specs.Lines.{positions_text, record_line, records_lines};
ghost use Rattle.set_lists.specs.Marks.{word_positions};
ghost use Rattle.text.specs.Writer.{HasRoom, Wrote};

use crate::lines::line;
use bitsets::Members;
use definitions::{MARK_WORDS, MARKS_PER_WORD, SET_WIDTH};
use text::{Number, Writer};
use words::low_bits;

// The positions that a mark word marks, of which the first is `from`, with a space behind each.
fn put_word(w: u32, from: usize, out: &mut Writer)
    requires room { HasRoom out.old (positions_text (word_positions from w)) }
    requires from { from < 2 ^ 16 }
    ensures { Wrote out.old (positions_text (word_positions from w)) out.new }
{
    for position in Members::of(low_bits(w) as u64) {
        out.number(from + position);
        out.space();
    }
}

// The positions that mark words mark, with a space behind each.
fn put_positions(marks: &[u32], out: &mut Writer)
    requires room { HasRoom out.old (positions_text (positions_in (length marks.now) marks.now)) }
    requires few { length marks.now ≤ mark_words }
    ensures { Wrote out.old (positions_text (positions_in (length marks.now) marks.now)) out.new }
{
    for (i, w) in marks.iter().enumerate() {
        put_word(*w, MARKS_PER_WORD * i, out);
    }
}

// The positions of a set, and then the title `>` with the position of its joined row in the fused table.
fn set_line(set: &[u32; SET_WIDTH], out: &mut Writer)
    requires { HasRoom out.old (record_line set.now) }
    ensures { Wrote out.old (record_line set.now) out.new }
{
    put_positions(&set[..MARK_WORDS], out);
    line::<Number>(b">", &[low_bits(set[MARK_WORDS]) as usize], out);
}

// A line for each record.
fn record_lines(records: &[[u32; SET_WIDTH]], out: &mut Writer)
    requires { HasRoom out.old (records_lines records.now) }
    ensures { Wrote out.old (records_lines records.now) out.new }
{
    for set in records {
        set_line(set, out);
    }
}

// The title of the sets, and a line for each record.
pub fn sets_lines(records: &[[u32; SET_WIDTH]], out: &mut Writer)
    requires { HasRoom out.old (sets_title (length records.now) ++ records_lines records.now) }
    ensures { Wrote out.old (sets_title (length records.now) ++ records_lines records.now) out.new }
{
    line::<Number>(b"sets", &[records.len()], out);
    record_lines(records, out);
}
