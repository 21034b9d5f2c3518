// The questions from 9 on that complement union puts to T, and what they leave to write: the fused table and the set list.
ghost use Rattle.std.specs.Prelude.{◌≡◌, ◌*◌, ◌≤◌, length};
ghost use Rattle.definitions.specs.Limits.{max_columns, max_sets};
ghost use Rattle.definitions.specs.Answer.{complement_says};
ghost use Rattle.fusing.specs.Fused.{FusedOf};
ghost use Rattle.fusing.specs.UnionRows.{rows_of};
ghost use Rattle.unions.specs.Fused.{ListedRows, FusedInto, FusedTable};

use crate::questions::check_room;
use definitions::{ComplementCounts, MAX_COLUMNS, MAX_SETS, Question, Refusal, SET_WIDTH};
use fusing::UnionRows;
use rows::Rows;
use tables::Table;

// To clear the lists for all joined rows takes longer than the rest of a call with few sets: up to so many get short lists.
const FEW_SETS: usize = 64;

const FEW_CELLS: usize = FEW_SETS * MAX_COLUMNS;

const MOST_CELLS: usize = MAX_SETS * MAX_COLUMNS;

// The joined rows of sets, the indices of the distinct ones in ascending order of the rows, and for each set the position of its row
// among these.
#[derive(Clone, Copy)]
struct FusedRows<'j, 'a> {
    joined: Rows<'j>,
    order: &'a [u32],
    positions: &'a [u32],
}

// The fused table goes to the table buffer, the set list to the set buffer. Both go through these functions as the caller lends them: a struct
// of two mutable slices would tell no more.
fn write_fused(
    t: &UnionRows,
    list: &[u64],
    fused: &FusedRows,
    table: &mut [u32],
    sets: &mut [u32],
) -> Result<ComplementCounts, Refusal>
    requires listed { ListedRows t.now list.now }
    requires fused_rows { FusedOf t.now.column_words.now (rows_of t.now) (length t.now.column_words.now) (length list.now)
        fused.now.joined.cells.now fused.now.order.now fused.now.positions.now (length fused.now.order.now) }
    requires joined { (fused.now.joined.width ≡ length t.now.column_words.now) × (fused.now.joined.len ≡ length list.now) }
    requires room { length list.now ≤ length fused.now.positions.now }
    ensures { FusedInto t.now.column_words.now (rows_of t.now)
        (complement_says result) table.old table.new sets.old sets.new }
{
    let width = t.column_words.len();
    let rows = fused.order.len();
    // What `put_image` asks for too.
    let words = 1 + width + rows * width;
    let set_words = 1 + SET_WIDTH * list.len();
    check_room(words, table.len(), set_words, sets.len())?;
    let filled = images::write_image(t.column_words, &fused.joined, fused.order, table);
    set_lists::write_list(list, fused.positions, sets);
    Ok(ComplementCounts {
        rows,
        words,
        filled,
        sets: list.len(),
        set_words,
    })
}

// The joined rows of the sets stand in lists for at most SETS of them.
fn fuse_sets<const SETS: usize, const CELLS: usize>(
    t: &UnionRows,
    list: &[u64],
    table: &mut [u32],
    sets: &mut [u32],
) -> Result<ComplementCounts, Refusal>
    requires listed { ListedRows t.now list.now }
    requires room { (length list.now ≤ SETS) × (SETS ≤ max_sets) × (CELLS ≡ SETS * max_columns) }
    ensures { FusedInto t.now.column_words.now (rows_of t.now)
        (complement_says result) table.old table.new sets.old sets.new }
{
    let mut joined = [0u32; CELLS];
    let mut order = [0u32; SETS];
    let mut positions = [0u32; SETS];
    let rows = fusing::fuse_rows(t, list, &mut joined, &mut order, &mut positions);
    let joined = Rows {
        cells: &joined,
        width: t.column_words.len(),
        len: list.len(),
    };
    let fused = FusedRows {
        joined,
        order: &order[..rows],
        positions: &positions,
    };
    write_fused(t, list, &fused, table, sets)
}

// The questions from 9 on, for T in a table in work.
pub(crate) fn fuse_table(
    t: &Table,
    table: &mut [u32],
    sets: &mut [u32],
) -> Result<ComplementCounts, Refusal>
    ensures { FusedTable t.now (complement_says result) table.old table.new sets.old sets.new }
{
    let rows = t.as_rows();
    let mut columns = [0u64; MAX_COLUMNS];
    patterns::fill_columns(&rows, &mut columns);
    let t = UnionRows::new(t.column_words(), rows, &columns);
    let mut list = [0u64; MAX_SETS + 1];
    let count = fusing::list_sets(&t, &mut list).ok_or(Question::Sets)?;
    let all = &list[..count];
    if count <= FEW_SETS {
        return fuse_sets::<FEW_SETS, FEW_CELLS>(&t, all, table, sets);
    }
    fuse_sets::<MAX_SETS, MOST_CELLS>(&t, all, table, sets)
}
