// Minimum union: T without the rows that some row of T subsumes, as an image.
ghost use Rattle.definitions.specs.Answer.{minimum_says};
ghost use Rattle.definitions.specs.Promise.{MinimumPromise};

use crate::questions::check_pair;
use definitions::{MAX_IDS, MinimumCounts, Refusal};
use tables::{Pair, Table};

// For an accepted pair.
fn minimise_accepted(pair: &Pair, table: &mut [u32]) -> Result<MinimumCounts, Refusal>
    ensures { MinimumPromise pair.now.first.words.now pair.now.second.words.now table.old (minimum_says result)
        table.new }
{
    let mut t = Table::new(pair);
    t.rows = pair.union_rows(&mut t.cells);
    let mut kept = [0u32; Table::MAX_ROWS];
    let rows = t.as_rows();
    let left = minimum::minimum_rows(&rows, &mut kept);
    let put = images::put_image(t.column_words(), &rows, &kept[..left.rows], table)?;
    Ok(MinimumCounts {
        rows: left.rows,
        words: put.words,
        filled: put.filled,
        pairs: left.pairs,
    })
}

pub fn minimum_union(a: &[u32], b: &[u32], table: &mut [u32]) -> Result<MinimumCounts, Refusal>
    ensures { MinimumPromise a.now b.now table.old (minimum_says result)
        table.new }
{
    // The list of ids lives in the call and is lent to the pair: the same two lines begin each union.
    let mut all = [0u32; MAX_IDS];
    let pair = check_pair(a, b, &mut all)?;
    minimise_accepted(&pair, table)
}
