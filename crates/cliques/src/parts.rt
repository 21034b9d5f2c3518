// The rows part by part: a maximal set lies in one connected part of the graph, and holds the rows that complement all others of the part.
ghost use Rattle.std.specs.Prelude.{◌≡◌, [], map, suc, ◌≤◌, ◌<◌, take};
ghost use Rattle.definitions.specs.Limits.{max_sets};
ghost use Rattle.bitsets.specs.Bits.{either, word_bits};
ghost use Rattle.cliques.specs.Graph.{adjacent};
ghost use Rattle.cliques.specs.Search.{row_of};
ghost use Rattle.cliques.specs.Parts.{Part, Common, RowsOf, Searched, RanParts};

use crate::search::search;
use bitsets::{Members, is_sub, lowest_row, meet, minus, size, unite, with_row};
use definitions::MAX_SETS;

// The connected part of the first of the rows: a row of it is put in, and the rows that complement it are put in later.
fn part_of(neighbours: &[u64], rows: u64) -> u64
    requires { RowsOf word_bits neighbours.now rows × (0 < rows) }
    ensures { Part (adjacent neighbours.now) rows result }
{
    let mut part = 0;
    // No walk over `Members`: the rows that complement the row are put among those ahead, on the way.
    let mut ahead = with_row(0, lowest_row(rows));
    while ahead != 0 {
        let row = lowest_row(ahead);
        part = with_row(part, row);
        ahead = minus(meet(unite(ahead, neighbours[row]), rows), part);
    }
    part
}

// The rows of a part that complement all its other rows.
fn common_rows(neighbours: &[u64], part: u64) -> u64
    requires { RowsOf word_bits neighbours.now part }
    ensures { Common (adjacent neighbours.now) part result }
{
    let mut common = 0;
    for row in Members::of(part) {
        if is_sub(part, with_row(neighbours[row], row)) {
            common = with_row(common, row);
        }
    }
    common
}

// Puts rows into each set of the list.
fn add_to_each(rows: u64, list: &mut [u64])
    ensures { list.new ≡ map (λ s. either s rows) list.old }
{
    for set in list {
        *set = unite(*set, rows);
    }
}

// Lists the maximal sets of a part after the first count sets, and gives the grown count, as `search` does. The rows that are in all of
// them are left out of the search, and put into each set afterwards.
fn list_part(neighbours: &[u64], part: u64, list: &mut [u64; MAX_SETS + 1], count: usize) -> usize
    requires { RowsOf word_bits neighbours.now part × (count ≤ max_sets) }
    ensures { (result ≤ suc max_sets)
        × Searched (row_of neighbours.now) (suc max_sets) word_bits part
        (take count list.old) (take result list.new) }
{
    let common = common_rows(neighbours, part);
    let core = minus(part, common);
    let found = search(neighbours, 0, core, size(core), 0, list, count);
    add_to_each(common, &mut list[count..found]);
    found
}

// Lists the maximal sets of the rows as they are found; how many they are, at most one more than MAX_SETS.
pub(crate) fn list_parts(neighbours: &[u64], rows: u64, list: &mut [u64; MAX_SETS + 1]) -> usize
    requires { RowsOf word_bits neighbours.now rows }
    ensures { (result ≤ suc max_sets)
        × RanParts (row_of neighbours.now) (suc max_sets) word_bits rows
        [] (take result list.new) }
{
    let mut rest = rows;
    let mut count = 0;
    // No walk over `Members`: a turn takes a whole part out of the rest.
    while rest != 0 {
        if MAX_SETS < count {
            return count;
        }
        let part = part_of(neighbours, rest);
        count = list_part(neighbours, part, list, count);
        rest = minus(rest, part);
    }
    count
}
