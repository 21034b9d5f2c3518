// The search: row by row, from the maximal sets of the decided rows to those with one row more. The graph goes through it as the words of its
// neighbours, and the sets of rows as words, so that a call keeps little on the stack.
ghost use Rattle.std.specs.Prelude.{◌≡◌, suc, ◌+◌, ◌≤◌, ◌<◌, [], ◌∷◌, ◌++◌, length, take};
ghost use Rattle.definitions.specs.Limits.{max_sets};
ghost use Rattle.bitsets.specs.Bits.{Inside, word_bits};
ghost use Rattle.cliques.specs.Graph.{adjacent};
ghost use Rattle.cliques.specs.Maximal.{Clique};
ghost use Rattle.cliques.specs.Search.{row_of, taken, MayTake, Ran, Ready, Asked, FreeRows, GrowsBack, Decides};

use bitsets::{Members, has_row, is_sub, lowest_row, meet, with_row, without_lowest};
use definitions::MAX_SETS;

// The rows of `start` that complement each row of the set.
fn free_rows(neighbours: &[u64], set: u64, start: u64) -> u64
    requires { Inside set (length neighbours.now) }
    ensures { FreeRows (adjacent neighbours.now) set start result }
{
    let mut word = start;
    for row in Members::of(set) {
        word = meet(word, neighbours[row]);
    }
    word
}

// Is what the free rows give, each taken in ascending order where it complements those before it, of the set alone?
fn grows_back(neighbours: &[u64], free: u64, set: u64) -> bool
    requires { Inside free (length neighbours.now) × Inside free word_bits
        × Clique (adjacent neighbours.now) set }
    ensures { GrowsBack (adjacent neighbours.now) free set result }
{
    let mut rest = free;
    // No walk over `Members`: a turn leaves of the rest the rows alone that complement the row.
    while rest != 0 {
        let row = lowest_row(rest);
        if !has_row(set, row) {
            return false;
        }
        rest = meet(without_lowest(rest), neighbours[row]);
    }
    true
}

// May row i be taken? What that makes has to be maximal, and the set the first of those that it comes from.
fn may_take(neighbours: &[u64], decided: u64, set: u64, i: usize) -> bool
    requires { Asked word_bits neighbours.now decided set i }
    ensures { Decides (MayTake (row_of neighbours.now) decided set i) result }
{
    let adjacent = neighbours[i];
    let free = free_rows(neighbours, meet(set, adjacent), decided);
    if meet(free, adjacent) != 0 {
        return false;
    }
    grows_back(neighbours, free, set)
}

// What row i leaves of the set, and the row.
fn take_row(neighbours: &[u64], set: u64, i: usize) -> u64
    requires { (i < length neighbours.now) × (i < word_bits) }
    ensures { result ≡ taken (row_of neighbours.now) set i }
{
    with_row(meet(set, neighbours[i]), i)
}

// Puts a set after the first count sets, and gives the grown count, as `search` does.
fn append(set: u64, list: &mut [u64], count: usize) -> usize
    requires { count < length list.old }
    ensures { (result ≡ count + 1)
        × (take result list.new ≡ take count list.old ++ (set ∷ [])) }
{
    list[count] = set;
    count + 1
}

// The set is maximal among the decided rows, and `undecided` rows, the rest, are to be decided. Takes the first of them or leaves it, and lists
// each maximal set of all these rows that grows out of the set, as it finds them. Gives the grown count: it stays once there is one set more than MAX_SETS.
// The count beside the list, and the grown count as the answer, are the form that document 01 asks for ("returning the grown list count").
pub(crate) fn search(
    neighbours: &[u64],
    decided: u64,
    rest: u64,
    undecided: usize,
    set: u64,
    list: &mut [u64; MAX_SETS + 1],
    count: usize,
) -> usize
    requires { Ready word_bits (suc max_sets) neighbours.now decided rest undecided set count }
    ensures { (result ≤ suc max_sets)
        × Ran (row_of neighbours.now) (suc max_sets) undecided decided rest set
        (take count list.old) (take result list.new) }
{
    if MAX_SETS < count {
        return count;
    }
    if undecided == 0 {
        return append(set, list, count);
    }
    let i = lowest_row(rest);
    let later = without_lowest(rest);
    let known = with_row(decided, i);
    if is_sub(set, neighbours[i]) {
        let grown = with_row(set, i);
        return search(neighbours, known, later, undecided - 1, grown, list, count);
    }
    if may_take(neighbours, decided, set, i) {
        let next = take_row(neighbours, set, i);
        let found = search(neighbours, known, later, undecided - 1, next, list, count);
        return search(neighbours, known, later, undecided - 1, set, list, found);
    }
    search(neighbours, known, later, undecided - 1, set, list, count)
}
