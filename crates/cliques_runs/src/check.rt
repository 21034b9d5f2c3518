// Is it a graph? What `find_sets` asks is tested before it is called.
ghost use Rattle.std.specs.Prelude.{◌≡◌, true, ◌<◌, ◌≤◌, length};
ghost use Rattle.bitsets.specs.Bits.{word_bits};
ghost use Rattle.cliques.specs.Graph.{Graph};
ghost use Rattle.cliques_runs.specs.Mirrored.{Mirrored};

use bitsets::has_row;

// Does row j say of all rows what they say of it, and does it not complement itself?
fn is_mirrored(neighbours: &[u64], j: usize) -> bool
    requires { (j < length neighbours.now) × (length neighbours.now ≤ word_bits) }
    ensures { result ≡ true → Mirrored neighbours.now (length neighbours.now) j }
{
    !has_row(neighbours[j], j)
        && (0..neighbours.len()).all(|k| has_row(neighbours[j], k) == has_row(neighbours[k], j))
}

// Are the rows a graph?
pub(crate) fn is_graph(neighbours: &[u64]) -> bool
    requires { length neighbours.now ≤ word_bits }
    ensures { result ≡ true → Graph neighbours.now (length neighbours.now) }
{
    (0..neighbours.len()).all(|j| is_mirrored(neighbours, j))
}
