// The trying of rows: each with the other rows in ascending position, until one subsumes it.
ghost use Rattle.std.specs.Prelude.{◌≡◌, not, ◌||◌, ◌≤◌, ◌<◌, eqb, length};
ghost use Rattle.definitions.specs.Word.{is_filled};
ghost use Rattle.minimum.specs.Candidates.{Prepared};

use crate::{Kept, candidates};
use rows::Rows;

// A cell y of the emptier row is empty, or equals the other row's cell x.
fn covered(x: u32, y: u32) -> bool
    ensures { result ≡ (not (is_filled y) || eqb x y) }
{
    y == 0 || x == y
}

// The rows of a table, ready to be tried: the filled cells of each, for each count of filled cells the rows that have more, and for each
// column the rows that are filled there.
#[derive(Drop)]
pub(crate) struct Trials<'a> {
    pub rows: Rows<'a>,
    pub counts: &'a [u32],
    pub fuller: &'a [u64],
    pub columns: &'a [u64],
    ghost prepared: { Prepared rows counts.now fuller.now columns.now },
}

impl Trials<'_> {
    ghost use Rattle.rows.specs.Rows.{rows_of};
    ghost use Rattle.minimum.specs.Trying.{tries_at, FirstSubsumer, KeptRows};

    // The first row that subsumes row k. No cell is compared of a row that is no candidate. A candidate has more filled cells, and so
    // subsumes row k if all columns are covered. Two loops that a label leaves are the form that was asked for, in place of `all`:
    // the subsumer is the value of the break, which a `for` over the candidates can't give, and the index of the inner tells the last column.
    fn subsumer(&self, k: usize) -> Option<usize>
        requires { k < self.now.rows.len }
        ensures { FirstSubsumer (rows_of self.now.rows) k result }
    {
        let row = self.rows.row(k);
        let fuller = self.fuller[self.counts[k] as usize];
        let mut rest = candidates::for_row(row, fuller, self.columns);
        'rows: loop {
            if rest == 0 {
                break None;
            }
            let j = rest.trailing_zeros() as usize;
            let other = self.rows.row(j);
            for (c, cell) in row.iter().enumerate() {
                if !covered(other[c], *cell) {
                    break;
                }
                // The last column is covered too.
                if c + 1 == row.len() {
                    break 'rows Some(j);
                }
            }
            rest &= rest - 1;
        }
    }

    // The pairs tried for row k: with the other rows up to the first that subsumes it, or with all of them.
    fn tries(&self, k: usize, subsumer: Option<usize>) -> usize
        requires { (k < self.now.rows.len) × FirstSubsumer (rows_of self.now.rows) k subsumer }
        ensures { (result ≡ tries_at (rows_of self.now.rows) k) × (result ≤ self.now.rows.len) }
    {
        match subsumer {
            Some(j) if j < k => j + 1,
            Some(j) => j,
            None => self.rows.len - 1,
        }
    }

    // Writes the indices of the rows that no row subsumes, ascending. The index into `kept` is counted by hand: it grows with the rows
    // that stay.
    pub fn keep_rows(&self, kept: &mut [u32]) -> Kept
        requires { self.now.rows.len ≤ length kept.old }
        ensures { KeptRows self.now.rows.width self.now.rows.len self.now.rows.cells.now kept.new
            result.rows result.pairs }
    {
        let mut rows = 0;
        let mut pairs = 0;
        for k in 0..self.rows.len {
            let subsumer = self.subsumer(k);
            pairs += self.tries(k, subsumer);
            if subsumer.is_none() {
                kept[rows] = k as u32;
                rows += 1;
            }
        }
        Kept { rows, pairs }
    }
}
