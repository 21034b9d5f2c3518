// Complement union: the fused table of T as an image, and the set list.
ghost use Rattle.definitions.specs.Answer.{complement_says};
ghost use Rattle.definitions.specs.Promise.{ComplementPromise};

use crate::fused::fuse_table;
use crate::questions::check_pair;
use definitions::{ComplementCounts, MAX_IDS, Refusal};
use tables::{Pair, Table};

// For an accepted pair.
fn fuse_accepted(
    pair: &Pair,
    table: &mut [u32],
    sets: &mut [u32],
) -> Result<ComplementCounts, Refusal>
    ensures { ComplementPromise pair.now.first.words.now pair.now.second.words.now table.old sets.old
        (complement_says result) table.new sets.new }
{
    let mut t = Table::new(pair);
    t.rows = pair.union_rows(&mut t.cells);
    fuse_table(&t, table, sets)
}

// A call that isn't refused meets demand 3.
pub fn complement_union(
    a: &[u32],
    b: &[u32],
    table: &mut [u32],
    sets: &mut [u32],
) -> Result<ComplementCounts, Refusal>
    ensures { ComplementPromise a.now b.now table.old sets.old
        (complement_says result) table.new sets.new }
{
    // The list of ids lives in the call and is lent to the pair: the same two lines begin each union.
    let mut all = [0u32; MAX_IDS];
    let pair = check_pair(a, b, &mut all)?;
    fuse_accepted(&pair, table, sets)
}
