// The trying of minimum union: each row of a table is tried with the other rows, until one subsumes it. The rows that none subsumes stay,
// and are named by their indices.
#![tactic(auto)]

mod candidates;
mod counts;
mod trial;

ghost use Rattle.minimum.specs.Trying.{Untried, KeptRows};

use counts::{fill_counts, fill_fuller};
use definitions::{MAX_COLUMNS, MAX_UNION_ROWS};
use rows::Rows;
use trial::Trials;

// How many rows stay, and how many pairs are tried.
#[derive(Clone, Copy, PartialEq, Eq, Debug)]
pub struct Kept {
    pub rows: usize,
    pub pairs: usize,
}

// Writes the indices of the rows that no row subsumes, ascending.
pub fn minimum_rows(rows: &Rows, kept: &mut [u32]) -> Kept
    requires { Untried rows.now kept.old }
    ensures { KeptRows rows.now.width rows.now.len rows.now.cells.now kept.new result.rows result.pairs }
{
    let mut counts = [0u32; MAX_UNION_ROWS];
    let mut fuller = [0u64; MAX_COLUMNS + 1];
    let mut columns = [0u64; MAX_COLUMNS];
    let counts = &mut counts[..rows.len];
    fill_counts(rows, counts);
    fill_fuller(counts, &mut fuller);
    patterns::fill_columns(rows, &mut columns);
    let trials = Trials {
        rows: *rows,
        counts,
        fuller: &fuller,
        columns: &columns,
    };
    trials.keep_rows(kept)
}
