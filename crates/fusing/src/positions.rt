// The position of each joined row in the fused table.
ghost use Rattle.std.specs.Prelude.{◌≡◌, ◌≤◌, length};
ghost use Rattle.definitions.specs.Limits.{max_sets};
ghost use Rattle.rows.specs.Indices.{rows_at, Below};
ghost use Rattle.rows.specs.Rows.{rows_of};
ghost use Rattle.fusing.specs.Positions.{positions_in, OwnPositions, DistinctRows};

use rows::Rows;

// Writes the position of each row whose own index is one of those given; for another row as many as they are, which is no position.
// The list is written as it is lent, in words: an Option for each would take another list.
fn fill_own(order: &[u32], positions: &mut [u32])
    requires { (length order.now ≤ max_sets) × Below (length positions.old) order.now }
    ensures { OwnPositions order.now positions.new }
{
    positions.fill(order.len() as u32);
    for (j, x) in order.iter().enumerate() {
        positions[*x as usize] = j as u32;
    }
}

// Writes the position of each row among the distinct ones, whose indices stand in ascending order of the rows. Only a row that equals
// another, and is named by the other's index, is sought.
pub(crate) fn find_positions(rows: &Rows, order: &[u32], positions: &mut [u32])
    requires { DistinctRows rows.now order.now × (length positions.old ≡ rows.now.len) }
    ensures { positions.new ≡ positions_in (rows_at rows.now.width rows.now.cells.now order.now) (rows_of rows.now) }
{
    fill_own(order, positions);
    for (k, position) in positions.iter_mut().enumerate() {
        if *position as usize == order.len() {
            *position = rows.position_of(order, rows.row(k)) as u32;
        }
    }
}
