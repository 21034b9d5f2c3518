// The rows with equal cells in a column, as groups: one row of each leads those that have the same.
ghost use Rattle.std.specs.Prelude.{◌≡◌, ◌<◌, length, get_or};
ghost use Rattle.definitions.specs.Limits.{max_union_rows};
ghost use Rattle.bitsets.specs.Bits.{Inside};
ghost use Rattle.fusing.specs.Groups.{cell_at, LeaderOf, Groups};

use crate::union_rows::UnionRows;
use bitsets::Members;
use definitions::MAX_UNION_ROWS;

// A row of the set that has the cell in column c, the first.
fn leader(t: &UnionRows, c: usize, cell: u32, rows: u64) -> Option<usize>
    requires { (c < t.now.rows.width) × Inside rows t.now.rows.len }
    ensures { LeaderOf (cell_at t.now.rows.width t.now.rows.cells.now c) cell rows result }
{
    // Not by `find`: it was tried, and what it asks and tells of runs of the iterator did not prove.
    for k in Members::of(rows) {
        if t.cell(k, c) == cell {
            return Some(k);
        }
    }
    None
}

// The leaders so far stand in buckets by the last digit of their cells, so that seldom more than one is compared.
const BUCKETS: usize = 16;

// The rows that are filled in a column: of each its leader, and of each leader the rows that it leads. What stands beside them is open, so
// that nothing is cleared from column to column. Two arrays: what a leader leads changes with each row that follows it.
#[derive(Drop)]
pub(crate) struct CellGroups {
    leaders: [usize; MAX_UNION_ROWS],
    equal: [u64; MAX_UNION_ROWS],
    ghost leader_each: { length leaders ≡ max_union_rows },
    ghost word_each: { length equal ≡ max_union_rows },
}

impl CellGroups {
    // Those of no column.
    pub(crate) const EMPTY: CellGroups = CellGroups {
        leaders: [0; MAX_UNION_ROWS],
        equal: [0; MAX_UNION_ROWS],
    };

    // Groups the rows that are filled in column c.
    pub(crate) fn fill(&mut self, t: &UnionRows, c: usize)
        requires { c < t.now.rows.width }
        ensures { Groups (cell_at t.now.rows.width t.now.rows.cells.now c) (get_or t.now.columns.now c 0)
            self.new.leaders self.new.equal }
    {
        let mut buckets = [0u64; BUCKETS];
        for j in Members::of(t.columns[c]) {
            let cell = t.cell(j, c);
            let d = cell as usize % BUCKETS;
            match leader(t, c, cell, buckets[d]) {
                Some(k) => {
                    self.leaders[j] = k;
                    self.equal[k] |= 1u64 << j;
                }
                None => {
                    self.leaders[j] = j;
                    self.equal[j] = 1u64 << j;
                    buckets[d] |= 1u64 << j;
                }
            }
        }
    }

    // The rows that are in the group of row j.
    pub(crate) fn of(&self, j: usize) -> u64
        requires { (j < length self.now.leaders) × (get_or self.now.leaders j 0 < length self.now.equal) }
        ensures { result ≡ get_or self.now.equal (get_or self.now.leaders j 0) 0 }
    {
        self.equal[self.leaders[j]]
    }
}
