// T, as the steps of complement union read it.
ghost use Rattle.std.specs.Prelude.{◌≡◌, ◌≤◌, ◌<◌, length};
ghost use Rattle.definitions.specs.Limits.{max_union_rows};
ghost use Rattle.rows.specs.Rows.{rows_of};
ghost use Rattle.patterns.specs.Columns.{ColumnsOf};
ghost use Rattle.fusing.specs.Fused.{RowsOf};
ghost use Rattle.fusing.specs.Groups.{cell_at};

use rows::Rows;

// The rows of T have a cell for each column word; `columns` holds for each column the set of the rows that are filled there, and nothing
// else. The column words and the columns are two lists, as the table lends the column words.
#[derive(Clone, Copy)]
pub struct UnionRows<'a> {
    pub column_words: &'a [u32],
    pub rows: Rows<'a>,
    pub columns: &'a [u64],
    pub ghost few: { rows.len ≤ max_union_rows },
    pub ghost one_cell_each: { rows.width ≡ length column_words.now },
    pub ghost one_word_each: { length columns.now ≡ length column_words.now },
    pub ghost filled: { ColumnsOf (rows_of rows) rows.width columns.now },
}

impl<'a> UnionRows<'a> {
    // The rows, and the words of as many columns as there are column words.
    pub fn new(column_words: &'a [u32], rows: Rows<'a>, columns: &'a [u64]) -> UnionRows<'a>
        requires { RowsOf rows columns.now × (rows.width ≡ length column_words.now) }
        ensures words { result.column_words.now ≡ column_words.now }
        ensures rows { result.rows ≡ rows.entry }
    {
        UnionRows {
            column_words,
            rows,
            columns: &columns[..column_words.len()],
        }
    }

    // The cell of row j in column c.
    pub(crate) fn cell(&self, j: usize, c: usize) -> u32
        requires { (j < self.now.rows.len) × (c < self.now.rows.width) }
        ensures { result ≡ cell_at self.now.rows.width self.now.rows.cells.now c j }
    {
        // One load, and no slice made first: the groups ask this of every filled cell.
        self.rows.cells[j * self.rows.width + c]
    }
}
