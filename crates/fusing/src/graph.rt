// The graph of T: which rows complement each other. They agree in every column, and of their filled columns some are each row's own and
// some are common: of these one must count, that is, be marked where any column of the union is. All this is told of all rows at once, by
// a bit a row, column by column.
ghost use Rattle.std.specs.Prelude.{◌≡◌, ◌≤◌, ◌<◌, length};
ghost use Rattle.definitions.specs.Limits.{max_columns};
ghost use Rattle.definitions.specs.Lists.{any};
ghost use Rattle.definitions.specs.Word.{mark_of};
ghost use Rattle.bitsets.specs.Bits.{Inside};
ghost use Rattle.fusing.specs.UnionRows.{rows_of};
ghost use Rattle.fusing.specs.Groups.{Led};
ghost use Rattle.fusing.specs.Graph.{CountedColumns, Crossing, CrossingRows, NarrowedBy, Narrowed, GraphOf};

use crate::groups::CellGroups;
use crate::union_rows::UnionRows;
use bitsets::{ALL_ROWS, Members};
use definitions::MAX_COLUMNS;
use patterns::blank;

// Whether a column of the union is marked.
fn any_marked(column_words: &[u32]) -> bool
    ensures { result ≡ any mark_of column_words.now }
{
    column_words.iter().any(|word| words::is_marked(*word))
}

// Writes for each column the rows that are filled there, or none where the column does not count. It is done once, so that a mark costs
// nothing a pair of rows.
fn fill_counted(t: &UnionRows, counted: &mut [u64])
    requires { length t.now.column_words.now ≤ length counted.old }
    ensures { CountedColumns t.now.column_words.now t.now.columns.now counted.new }
{
    let marked = any_marked(t.column_words);
    // By index: std says nothing of a slice after `zip` of its `iter_mut`.
    for (c, word) in t.column_words.iter().enumerate() {
        let counts = words::is_marked(*word) | !marked;
        counted[c] = if counts { t.columns[c] } else { 0 };
    }
}

// The rows whose filled columns cross those of a row: filled somewhere where the row is and the column counts (`shared`), but not
// everywhere where it is (`above`), nor nowhere else (`within`).
fn crossing(row: &[u32], columns: &[u64], counted: &[u64]) -> u64
    requires { (length row.now ≤ length columns.now) × (length row.now ≤ length counted.now) }
    ensures { Crossing row.now columns.now counted.now result }
{
    let mut shared = 0;
    let mut above = ALL_ROWS;
    let mut within = ALL_ROWS;
    // One index for the three lists: a pair within a pair is no plainer.
    for (c, cell) in row.iter().enumerate() {
        let filled = columns[c];
        let empty = blank(*cell);
        shared |= counted[c] & !empty;
        above &= filled | empty;
        within &= !(filled & empty);
    }
    shared & !above & !within
}

// Writes for each row those that cross it.
fn cross_rows(t: &UnionRows, counted: &[u64], neighbours: &mut [u64])
    requires { CountedColumns t.now.column_words.now t.now.columns.now counted.now × (t.now.rows.len ≤ length neighbours.old) }
    ensures { CrossingRows t.now.column_words.now (rows_of t.now) neighbours.new }
{
    for (j, crossed) in neighbours[..t.rows.len].iter_mut().enumerate() {
        *crossed = crossing(t.rows.row(j), t.columns, counted);
    }
}

// Leaves to each row that is filled in a column the neighbours that are in its group there, or not filled.
fn narrow_rows(filled: u64, groups: &CellGroups, neighbours: &mut [u64])
    requires { Led filled groups.now.leaders groups.now.equal × Inside filled (length groups.now.leaders)
        × Inside filled (length neighbours.old) }
    ensures { NarrowedBy filled groups.now.leaders groups.now.equal neighbours.old neighbours.new }
{
    for j in Members::of(filled) {
        neighbours[j] &= groups.of(j) | !filled;
    }
}

// Leaves to each row the neighbours that agree with it.
fn narrow_columns(t: &UnionRows, neighbours: &mut [u64])
    requires { t.now.rows.len ≤ length neighbours.old }
    ensures { Narrowed (rows_of t.now) neighbours.old neighbours.new }
{
    let mut groups = CellGroups::EMPTY;
    for (c, filled) in t.columns.iter().enumerate() {
        groups.fill(t, c);
        narrow_rows(*filled, &groups, neighbours);
    }
}

// Writes the graph of T.
pub(crate) fn fill_neighbours(t: &UnionRows, neighbours: &mut [u64])
    requires { (length t.now.column_words.now ≤ max_columns) × (t.now.rows.len ≤ length neighbours.old) }
    ensures { GraphOf t.now.column_words.now (rows_of t.now) neighbours.new }
{
    // A copy, which the writes can't reach: its slices are read once.
    let t = *t;
    let mut counted = [0u64; MAX_COLUMNS];
    fill_counted(&t, &mut counted);
    cross_rows(&t, &counted, neighbours);
    narrow_columns(&t, neighbours);
}
