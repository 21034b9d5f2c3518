// Outer union: T as an image. The rows stay where they were widened; their indices are ordered.
ghost use Rattle.definitions.specs.Answer.{outer_says};
ghost use Rattle.definitions.specs.Promise.{OuterPromise};

use crate::questions::check_pair;
use definitions::{MAX_IDS, OuterCounts, Refusal};
use tables::{Pair, Table};

// For an accepted pair.
fn unite_accepted(pair: &Pair, table: &mut [u32]) -> Result<OuterCounts, Refusal>
    ensures { OuterPromise pair.now.first.words.now pair.now.second.words.now table.old (outer_says result)
        table.new }
{
    let mut t = Table::new(pair);
    t.rows = pair.widen_both(&mut t.cells);
    let rows = t.as_rows();
    let mut order = [0u32; Table::MAX_ROWS];
    let mut spare = [0u32; Table::MAX_ROWS];
    let count = rows.order_rows(&mut order[..rows.len], &mut spare);
    let put = images::put_image(t.column_words(), &rows, &order[..count], table)?;
    Ok(OuterCounts {
        rows: count,
        words: put.words,
        filled: put.filled,
    })
}

pub fn outer_union(a: &[u32], b: &[u32], table: &mut [u32]) -> Result<OuterCounts, Refusal>
    ensures { OuterPromise a.now b.now table.old (outer_says result)
        table.new }
{
    // The list of ids lives in the call and is lent to the pair: the same two lines begin each union.
    let mut all = [0u32; MAX_IDS];
    let pair = check_pair(a, b, &mut all)?;
    unite_accepted(&pair, table)
}
