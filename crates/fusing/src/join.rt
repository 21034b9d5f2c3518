// The joined rows of sets. In each column the first member that is filled there has the joined cell, so that a joined row takes one step a
// column, however many members there are.
ghost use Rattle.std.specs.Prelude.{◌≡◌, ◌*◌, ◌≤◌, ◌<◌, length};
ghost use Rattle.definitions.specs.Image.{rows_in};
ghost use Rattle.bitsets.specs.Bits.{Inside};
ghost use Rattle.fusing.specs.Fused.{AllSetsOf, joined_rows};
ghost use Rattle.fusing.specs.UnionRows.{rows_of};
ghost use Rattle.fusing.specs.Join.{pick_cell, pick_from};

use crate::union_rows::UnionRows;

// The cell in column c of the first row of the set; empty where the set is.
fn pick_cell(t: &UnionRows, c: usize, set: u64) -> u32
    requires { (c < t.now.rows.width) × Inside set t.now.rows.len }
    ensures { result ≡ pick_cell t.now.rows.width t.now.rows.cells.now c set }
{
    if set == 0 {
        return 0;
    }
    t.cell(set.trailing_zeros() as usize, c)
}

// Writes the joined row of the set.
fn join_set(t: &UnionRows, set: u64, out: &mut [u32])
    requires { length out.old ≡ t.now.rows.width }
    ensures { out.new ≡ pick_from t.now.rows.width t.now.rows.cells.now set 0 t.now.columns.now }
{
    // By index: std says nothing of a slice after `zip` of its `iter_mut`.
    for (c, filled) in t.columns.iter().enumerate() {
        out[c] = pick_cell(t, c, set & *filled);
    }
}

// Writes the joined rows of the maximal sets.
pub(crate) fn join_sets(t: &UnionRows, sets: &[u64], out: &mut [u32])
    requires { AllSetsOf t.now.column_words.now (rows_of t.now) sets.now
        × (length sets.now * t.now.rows.width ≤ length out.old) }
    ensures { rows_in t.now.rows.width (length sets.now) out.new
        ≡ joined_rows t.now.column_words.now (rows_of t.now) }
{
    // A copy, which the writes can't reach: its slices are read once.
    let t = *t;
    let width = t.rows.width;
    // Not by chunks_exact_mut: T may have no column, and a chunk has at least one word.
    for (k, set) in sets.iter().enumerate() {
        let at = k * width;
        join_set(&t, *set, &mut out[at..at + width]);
    }
}
