// T, the outer union of two accepted images, in a table in work. The columns' ids may stand in any order, as they do before they are in the
// table: a column's index is the count of smaller ids.
ghost use Rattle.std.specs.Prelude.{◌≡◌, ℕ, ◌≤◌, length, get_or};
ghost use Rattle.definitions.specs.Limits.{max_columns, max_union_rows};
ghost use Rattle.definitions.specs.Image.{rows_in};
ghost use Rattle.definitions.specs.Ascending.{ascending};
ghost use Rattle.definitions.specs.OuterUnion.{compare_row, union_rows};
ghost use Rattle.rows.specs.Rows.{rows_of};
ghost use Rattle.tables.specs.Table.{both_rows, Found, CellsOf};

use crate::Table;
use crate::widen::widen_image;
use definitions::MAX_ROWS;
use images::Image;
use rows::Rows;

// Two accepted images, and the ids of both, each once: a table has room for them.
#[derive(Clone, Copy)]
pub struct Pair<'a> {
    pub first: Image<'a, MAX_ROWS>,
    pub second: Image<'a, MAX_ROWS>,
    pub ids: &'a [u32],
    pub ghost found: { Found first.words.now second.words.now ids.now },
}

impl Pair<'_> {
    // Writes the rows of both images, widened to the columns of both, one after the other over empty cells, which are those of a new table or
    // of a list made for them; how many they are. A call for each image, in no loop: where the second's rows go is told by the first's.
    pub fn widen_both(&self, cells: &mut [u32; Table::MAX_CELLS]) -> usize
        requires { (k : ℕ) → get_or cells.old k 0 ≡ 0 }
        ensures { CellsOf (both_rows self.now.first.words.now self.now.second.words.now) (length self.now.ids.now)
            result cells.new }
    {
        let width = self.ids.len();
        let first = self.first.rows();
        let second = self.second.rows();
        let from = first * width;
        let end = from + second * width;
        widen_image(self.first, self.ids, &mut cells[..from]);
        widen_image(self.second, self.ids, &mut cells[from..end]);
        first + second
    }

    // Writes T, the distinct widened rows of both images, ascending; how many rows it has.
    pub fn union_rows(&self, cells: &mut [u32; Table::MAX_CELLS]) -> usize
        ensures { CellsOf (union_rows self.now.first.words.now self.now.second.words.now) (length self.now.ids.now)
            result cells.new }
    {
        let mut wide = [0u32; Table::MAX_CELLS];
        let len = self.widen_both(&mut wide);
        let rows = Rows {
            cells: &wide,
            width: self.ids.len(),
            len,
        };
        order_cells(&rows, cells)
    }
}

// Writes the distinct rows, ascending; how many they are.
fn order_cells(wide: &Rows, cells: &mut [u32; Table::MAX_CELLS]) -> usize
    requires { (wide.now.width ≤ max_columns) × (wide.now.len ≤ max_union_rows) }
    ensures { (rows_in wide.now.width result cells.new ≡ ascending compare_row (rows_of wide.now))
        × (result ≤ wide.now.len) }
{
    let mut order = [0u32; Table::MAX_ROWS];
    let mut spare = [0u32; Table::MAX_ROWS];
    let m = wide.order_rows(&mut order[..wide.len], &mut spare);
    wide.write_rows(&order[..m], cells);
    m
}
