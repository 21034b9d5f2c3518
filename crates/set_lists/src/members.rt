// The members of sets as positions: how many words they take, and their writing. Each part is written from the front of the words that are
// left, and tells how many it wrote: a writer that only goes on would have to count the members first, a further walk for each record.
ghost use Rattle.std.specs.Prelude.{◌≡◌, map, ◌^◌, ◌≤◌, ◌<◌, length};
ghost use Rattle.definitions.specs.Limits.{max_sets, mark_words};
ghost use Rattle.definitions.specs.Reading.{positions_in};
ghost use Rattle.definitions.specs.ReadBack.{read_record};
ghost use Rattle.lists.specs.Written.{Fits, Written};
ghost use Rattle.set_lists.specs.Marks.{word_positions, entries};

use crate::Record;
use bitsets::Members;
use definitions::{MARK_WORDS, MARKS_PER_WORD};
use words::low_bits;

// How many positions mark words mark.
fn count_members(marks: &[u32]) -> u32
    requires { length marks.now ≤ mark_words }
    ensures { result ≡ length (positions_in (length marks.now) marks.now) }
{
    marks.iter().map(|w| low_bits(*w).count_ones()).sum()
}

// How many words are written of a record.
fn count_entry(set: &Record) -> usize
    ensures { result ≡ length (read_record mark_words set.now) }
{
    2 + count_members(&set[..MARK_WORDS]) as usize
}

// How many words are written of records.
pub(crate) fn count_words(records: &[Record]) -> usize
    requires { length records.now ≤ max_sets }
    ensures { result ≡ length (entries records.now) }
{
    records.iter().map(count_entry).sum()
}

// Writes the positions that a mark word marks, of which the first is `from`, over the front of `out`: so many.
fn write_positions(w: u32, from: u32, out: &mut [u32]) -> usize
    requires { Fits out.old 0 (word_positions from w) × (from < 2 ^ 16) }
    ensures { Written out.old 0 (word_positions from w) out.new result }
{
    let marks = low_bits(w);
    // By index: std says nothing of a slice after `zip` of its `iter_mut`.
    for (count, position) in Members::of(marks as u64).enumerate() {
        out[count] = from + position as u32;
    }
    marks.count_ones() as usize
}

// Writes the positions that mark words mark over the front of `out`: so many.
fn write_members(marks: &[u32], out: &mut [u32]) -> usize
    requires marks_len_bound { length marks.now ≤ mark_words }
    requires fits { Fits out.old 0 (positions_in (length marks.now) marks.now) }
    ensures { Written out.old 0 (positions_in (length marks.now) marks.now) out.new result }
{
    let mut count = 0;
    for (i, w) in marks.iter().enumerate() {
        let from = (MARKS_PER_WORD * i) as u32;
        count += write_positions(*w, from, &mut out[count..]);
    }
    count
}

// Writes the number of members, their positions, and the position of the joined row over the front of `out`: so many words.
fn write_entry(set: &Record, out: &mut [u32]) -> usize
    requires { Fits out.old 0 (read_record mark_words set.now) }
    ensures { Written out.old 0 (read_record mark_words set.now) out.new result }
{
    let members = write_members(&set[..MARK_WORDS], &mut out[1..]);
    out[0] = members as u32;
    out[1 + members] = low_bits(set[MARK_WORDS]);
    2 + members
}

// Writes these words of each record over the front of `out`: so many.
pub(crate) fn write_entries(records: &[Record], out: &mut [u32]) -> usize
    requires { Fits out.old 0 (entries records.now) }
    ensures { Written out.old 0 (entries records.now) out.new result }
{
    let mut count = 0;
    for set in records {
        count += write_entry(set, &mut out[count..]);
    }
    count
}
