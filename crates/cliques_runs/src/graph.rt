// The graphs that are searched.
ghost use Rattle.std.specs.Prelude.{◌≤◌, length};
ghost use Rattle.bitsets.specs.Bits.{word_bits};

use bitsets::with_row;

// The rows below n that row j complements; of the row itself nothing is asked.
fn word<F: Fn(usize, usize) -> bool>(n: usize, j: usize, complements: &F) -> u64
    requires width { n ≤ word_bits }
    requires call { F.IsAlwaysCallable complements.now }
{
    let mut word = 0;
    for k in 0..n {
        if k != j && complements(j, k) {
            word = with_row(word, k);
        }
    }
    word
}

// Writes the graph of as many rows as there are words, of which two are joined where they complement each other.
pub(crate) fn fill<F: Fn(usize, usize) -> bool>(neighbours: &mut [u64], complements: F)
    requires rows { length neighbours.old ≤ word_bits }
    requires call { F.IsAlwaysCallable complements }
{
    let n = neighbours.len();
    for (j, row) in neighbours.iter_mut().enumerate() {
        *row = word(n, j, &complements);
    }
}
