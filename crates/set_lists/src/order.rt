// Check 14 of a set list that is read: the set order of its records.
ghost use Rattle.std.specs.Prelude.{◌≡◌, map, length};
ghost use Rattle.definitions.specs.Limits.{mark_words};
ghost use Rattle.definitions.specs.Ascending.{is_before, is_ascending};
ghost use Rattle.definitions.specs.ComplementUnion.{compare_set};
ghost use Rattle.definitions.specs.Reading.{set_in};

use crate::Record;
use definitions::MARK_WORDS;
use std::cmp::Ordering;
use words::low_bits;

// Set order of the sets that mark words mark: the first two words that differ tell.
fn compare_marks(a: &[u32], b: &[u32]) -> Ordering
    requires { length a.now ≡ length b.now }
    ensures { result ≡ compare_set (set_in (length a.now) a.now)
        (set_in (length b.now) b.now) }
{
    a.iter()
        .zip(b)
        .map(|(v, w)| bitsets::compare(low_bits(*v) as u64, low_bits(*w) as u64))
        .find(|order| order.is_ne())
        .unwrap_or(Ordering::Equal)
}

// Whether the set of a record comes before that of another.
fn comes_before(a: &Record, b: &Record) -> bool
    ensures { result ≡ is_before (compare_set (set_in mark_words a.now) (set_in mark_words b.now)) }
{
    compare_marks(&a[..MARK_WORDS], &b[..MARK_WORDS]).is_lt()
}

// Whether the set of each record comes before the next.
pub(crate) fn in_order(records: &[Record]) -> bool
    ensures { result ≡ is_ascending compare_set (map (set_in mark_words) records.now) }
{
    records.is_sorted_by(comes_before)
}
