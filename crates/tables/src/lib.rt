// The table in work, and the outer union of two accepted images in it.
#![tactic(auto)]

ghost use Rattle.std.specs.Prelude.{◌≤◌, length};
ghost use Rattle.definitions.specs.Limits.{max_columns, max_union_rows};

mod columns;
mod union;
mod widen;

pub use columns::both_ids;
use columns::union_columns;
use rows::Rows;
pub use union::Pair;

// A table in work: its cells row by row, its column ids and both counts. With an id stands its mark: `ids` holds the column words.
// The counts stand beside the arrays, and not in slices of them, by a rule of the project: a table in work is one record by value.
#[derive(Drop)]
pub struct Table {
    pub cells: [u32; Table::MAX_CELLS],
    pub ids: [u32; Table::MAX_COLUMNS],
    pub rows: usize,
    pub columns: usize,
    pub ghost few_columns: { columns ≤ max_columns },
    pub ghost few_rows: { rows ≤ max_union_rows },
}

impl Table {
    ghost use Rattle.tables.specs.Table.{NewTable, LentRows, LentWords};

    // The largest counts.
    pub const MAX_ROWS: usize = definitions::MAX_UNION_ROWS;

    pub const MAX_COLUMNS: usize = definitions::MAX_COLUMNS;

    pub const MAX_CELLS: usize = Self::MAX_ROWS * Self::MAX_COLUMNS;

    // The empty table.
    pub const EMPTY: Table = Table {
        cells: [0; Self::MAX_CELLS],
        ids: [0; Self::MAX_COLUMNS],
        rows: 0,
        columns: 0,
    };

    // A table with the union's columns; it has no rows, and empty cells. The calls put its rows into it themselves: returned with them, it would be
    // copied.
    #[inline(always)]
    pub fn new(pair: &Pair) -> Table
        ensures { NewTable pair.now.first.words.now pair.now.second.words.now (length pair.now.ids.now) result }
    {
        let mut t = Self::EMPTY;
        union_columns(pair, &mut t.ids);
        t.columns = pair.ids.len();
        t
    }

    // Its column words.
    pub fn column_words(&self) -> &[u32]
        ensures { LentWords self.now result.now }
    {
        &self.ids[..self.columns]
    }

    // Its rows, of a cell for each column.
    pub fn as_rows(&self) -> Rows<'_>
        ensures { LentRows self.now result }
    {
        Rows {
            cells: &self.cells,
            width: self.columns,
            len: self.rows,
        }
    }
}
