// The maximal sets of T, and its fused table: the distinct joined rows of these sets. T has as many columns as the union has column words,
// whose marks say which of them condition (3) counts.
ghost use Rattle.std.specs.Prelude.{◌≤◌, length};
ghost use Rattle.definitions.specs.Limits.{max_columns};
ghost use Rattle.fusing.specs.Fused.{SetsOf, AllSetsOf, RoomFor, FusedOf};
ghost use Rattle.fusing.specs.UnionRows.{rows_of};

use crate::graph::fill_neighbours;
use crate::join::join_sets;
use crate::positions::find_positions;
use crate::union_rows::UnionRows;
use definitions::{MAX_SETS, MAX_UNION_ROWS};
use rows::Rows;

// Lists the maximal sets; how many they are, or none where they are more than may be listed. That the columns are few is asked here, and not in
// `UnionRows`: `fuse_rows` does without.
pub fn list_sets(t: &UnionRows, list: &mut [u64; MAX_SETS + 1]) -> Option<usize>
    requires { length t.now.column_words.now ≤ max_columns }
    ensures { SetsOf t.now.column_words.now (rows_of t.now) list.new result }
{
    let mut words = [0u64; MAX_UNION_ROWS];
    let neighbours = &mut words[..t.rows.len];
    fill_neighbours(t, neighbours);
    cliques::find_sets(neighbours, list)
}

// Joins the rows of each set, and names the distinct joined rows ascending by their indices; how many they are. The position of each set's
// joined row among them is written too: until then `positions` is the spare list of the ordering.
pub fn fuse_rows(
    t: &UnionRows,
    sets: &[u64],
    joined: &mut [u32],
    order: &mut [u32],
    positions: &mut [u32],
) -> usize
    requires listed { AllSetsOf t.now.column_words.now (rows_of t.now) sets.now }
    requires room_for { RoomFor (length sets.now) (length t.now.column_words.now) joined.old order.old positions.old }
    ensures { FusedOf t.now.column_words.now (rows_of t.now) (length t.now.column_words.now)
        (length sets.now) joined.new order.new positions.new result }
{
    join_sets(t, sets, joined);
    let count = sets.len();
    let rows = Rows {
        cells: joined,
        width: t.rows.width,
        len: count,
    };
    let m = rows.order_rows(&mut order[..count], positions);
    find_positions(&rows, &order[..m], &mut positions[..count]);
    m
}
