// The rows that may subsume a row: the ones with more filled cells, and of these the ones that are filled wherever it is. Of no other row
// need a cell be compared.
ghost use Rattle.std.specs.Prelude.{◌≤◌, length};
ghost use Rattle.minimum.specs.Candidates.{Candidates};

use patterns::blank;

// Those of the fuller rows that are filled in each column where a row is.
pub(crate) fn for_row(row: &[u32], fuller: u64, columns: &[u64]) -> u64
    requires { length row.now ≤ length columns.now }
    ensures { Candidates row.now fuller columns.now result }
{
    let mut set = fuller;
    for (cell, filled) in row.iter().zip(columns) {
        set &= *filled | blank(*cell);
    }
    set
}
