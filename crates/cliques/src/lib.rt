// All maximal complementing sets of a graph of at most MAX_UNION_ROWS rows, in set order, in bounded work. Bit k of neighbours[j] says that the
// rows j and k complement each other; a set of rows is a word whose bit k says that row k is in it.
#![tactic(auto)]

mod ordering;
mod parts;
mod search;

ghost use Rattle.std.specs.Prelude.{◌≤◌, length};
ghost use Rattle.definitions.specs.Limits.{max_union_rows};
ghost use Rattle.cliques.specs.Graph.{Graph, FoundSets};

use bitsets::{below, with_row};
use definitions::MAX_SETS;
use ordering::order_sets;
use parts::list_parts;

// Lists the maximal sets in set order; how many they are. Of more than MAX_SETS it gives none, and what the list holds is open.
pub fn find_sets(neighbours: &[u64], list: &mut [u64; MAX_SETS + 1]) -> Option<usize>
    requires { Graph neighbours.now (length neighbours.now) × (length neighbours.now ≤ max_union_rows) }
    ensures { FoundSets neighbours.now (length neighbours.now) list.new result }
{
    if neighbours.is_empty() {
        return Some(0);
    }
    let last = neighbours.len() - 1;
    let found = list_parts(neighbours, with_row(below(last), last), list);
    if MAX_SETS < found {
        return None;
    }
    Some(order_sets(&mut list[..found]))
}
