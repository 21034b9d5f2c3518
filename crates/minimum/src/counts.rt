// The filled cells of each row, counted once and not for each pair, and for each count the rows that have more.
ghost use Rattle.std.specs.Prelude.{◌≡◌, map, ℕ, ◌≤◌, ◌<◌, length, get_or};
ghost use Rattle.definitions.specs.Limits.{max_columns};
ghost use Rattle.definitions.specs.MinimumUnion.{filled};
ghost use Rattle.rows.specs.Rows.{rows_of};
ghost use Rattle.minimum.specs.Candidates.{EqualTo, FullerThan};
ghost use Rattle.bitsets.specs.Bits.{word_bits};

use rows::Rows;

// Writes the filled cells of each row, a count for each.
pub(crate) fn fill_counts(rows: &Rows, counts: &mut [u32])
    requires { (rows.now.width ≤ max_columns) × (length counts.old ≡ rows.now.len) }
    ensures { counts.new ≡ map filled (rows_of rows.now) }
{
    for (i, count) in counts.iter_mut().enumerate() {
        *count = patterns::count_filled(rows.row(i));
    }
}

// Writes for each count the rows that have it, over words that hold no row: `minimum_rows` makes them, beside its other lists.
fn rows_by_count(counts: &[u32], words: &mut [u64])
    requires counts_len_bound { (length counts.now ≤ word_bits) × ((j : ℕ) → get_or counts.now j 0 < length words.old) }
    requires by_index { (k : ℕ) → get_or words.old k 0 ≡ 0 }
    ensures { EqualTo counts.now (length counts.now) words.new }
{
    // The index is the bit of the row.
    for (j, count) in counts.iter().enumerate() {
        words[*count as usize] |= 1u64 << j;
    }
}

// Writes for each count the rows with a larger one, over words that hold no row. The count falls, so that the rows with a count from
// it on grow by those that have it.
pub(crate) fn fill_fuller(counts: &[u32], words: &mut [u64])
    requires counts_len_bound { (length counts.now ≤ word_bits) × ((j : ℕ) → get_or counts.now j 0 < length words.old) }
    requires by_index { (k : ℕ) → get_or words.old k 0 ≡ 0 }
    ensures { FullerThan counts.now words.new }
{
    rows_by_count(counts, words);
    let mut fuller = 0;
    // From the last on, by index: std says nothing of a slice after `rev` of its `iter_mut`.
    for k in (0..words.len()).rev() {
        let equal = words[k];
        words[k] = fuller;
        fuller |= equal;
    }
}
