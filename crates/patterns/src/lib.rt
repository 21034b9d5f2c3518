// The filled pattern of a row, the ones of a pattern, the count of filled cells, and the rows that are filled in each column.
#![tactic(auto)]

ghost use Rattle.std.specs.Prelude.{◌≡◌, cond, ◌≤◌, ◌<◌, ◌^◌, length};
ghost use Rattle.definitions.specs.Limits.{max_columns};
ghost use Rattle.definitions.specs.Word.{is_filled};
ghost use Rattle.definitions.specs.MinimumUnion.{filled};
ghost use Rattle.patterns.specs.Pattern.{pattern_of};

mod columns;
mod ones;

pub use columns::{blank, fill_columns};
use ones::count_ones;

// Is a cell filled?
pub(crate) fn is_filled(cell: u32) -> bool
    ensures { result ≡ is_filled cell }
{
    cell != 0
}

// The filled pattern of a row.
fn pattern(row: &[u32]) -> u32
    requires { length row.now ≤ max_columns }
    ensures { (result ≡ pattern_of row.now) × (result < 2 ^ max_columns) }
{
    let mut p = 0;
    // The index is the bit of the cell's column.
    for (i, cell) in row.iter().enumerate() {
        p |= u32::from(is_filled(*cell)) << i;
    }
    p
}

// The filled cells of a row.
pub fn count_filled(row: &[u32]) -> u32
    requires { length row.now ≤ max_columns }
    ensures { result ≡ filled row.now }
{
    count_ones(pattern(row))
}

// How many of the cells are filled, however many they are: the table of `count_filled` is for a row, whose cells a pattern holds.
pub fn count_cells(cells: &[u32]) -> usize
    ensures { result ≡ filled cells.now }
{
    cells.iter().map(|cell| usize::from(is_filled(*cell))).sum()
}
