// The checks 12 and 13 of a set list that is read: of the list as a whole, and of each record.
ghost use Rattle.std.specs.Prelude.{◌≡◌, ◌&&◌, ◌%◌, ◌^◌, true, false, eqb, ltb, length, MatchOption};
ghost use Rattle.definitions.specs.Limits.{max_sets, mark_words};
ghost use Rattle.definitions.specs.Lists.{all};
ghost use Rattle.definitions.specs.Word.{kind_of};
ghost use Rattle.definitions.specs.Reading.{positions_in, records_in};
ghost use Rattle.definitions.specs.ReadBack.{is_set_list, is_record};
ghost use Rattle.set_lists.specs.Marks.{is_mark_word, marks_fit};

use crate::Record;
use definitions::{MARK_WORDS, MARKS_PER_WORD, MAX_SETS, MAX_UNION_ROWS, SET_WIDTH};
use words::{kind, low_bits};

// The records of a list that has the header and the length of a set list, for a T of so many rows.
pub(crate) fn records_in(list: &[u32], rows: u32) -> Option<&[Record]>
    ensures { MatchOption result (is_set_list mark_words rows list.now ≡ false)
        (λ r. (is_set_list mark_words rows list.now ≡ true) × (r.now ≡ records_in mark_words list.now)) }
{
    let (header, rest) = list.split_first()?;
    let sets = words::rows(*header) as usize;
    if rows > MAX_UNION_ROWS as u32
        || !words::is_header(*header)
        || words::columns(*header) != SET_WIDTH as u32
        || sets > MAX_SETS
        || rest.len() != SET_WIDTH * sets
    {
        return None;
    }
    let (records, _) = rest.as_chunks();
    Some(records)
}

// Whether a word is of kind 2 and marks none but the first `held` of its positions.
fn is_mark_word(w: u32, held: u32) -> bool
    ensures { result ≡ is_mark_word 0 held w }
{
    kind(w) == 2 && (held >= MARKS_PER_WORD as u32 || low_bits(w) >> held == 0)
}

// Whether mark words are of kind 2 and mark positions below `rows` alone.
fn marks_fit(marks: &[u32], rows: u32) -> bool
    ensures { result ≡ marks_fit rows marks.now }
{
    let mut held = rows;
    for w in marks {
        if !is_mark_word(*w, held) {
            return false;
        }
        held = held.saturating_sub(MARKS_PER_WORD as u32);
    }
    true
}

// Whether mark words mark a position.
fn has_mark(marks: &[u32]) -> bool
    ensures { result ≡ ltb 0 (length (positions_in (length marks.now) marks.now)) }
{
    marks.iter().any(|w| low_bits(*w) != 0)
}

// Whether a word is of kind 1 and holds a position that a fused table can have.
fn is_row_word(w: u32) -> bool
    ensures { result ≡ (eqb (kind_of w) 1 && ltb (w % 2 ^ 30) max_sets) }
{
    kind(w) == 1 && low_bits(w) < (MAX_SETS as u32)
}

// Whether a record passes check 13, for a T of so many rows.
pub(crate) fn is_record(set: &Record, rows: u32) -> bool
    ensures { result ≡ is_record mark_words rows set.now }
{
    let marks = &set[..MARK_WORDS];
    is_row_word(set[MARK_WORDS]) && has_mark(marks) && marks_fit(marks, rows)
}

// Whether each record passes check 13.
pub(crate) fn all_records(records: &[Record], rows: u32) -> bool
    ensures { result ≡ all (is_record mark_words rows) records.now }
{
    records.iter().all(|set| is_record(set, rows))
}
