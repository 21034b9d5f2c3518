// Sets of positions, a bit a position: the operations on words that hold them. A position is that of a row of T. A set is a word without a bound
// of its own: which rows it may hold differs from call to call.
#![tactic(auto)]

ghost use Rattle.std.specs.Prelude.{◌≡◌, ℕ, ◌<◌};
ghost use Rattle.bitsets.specs.Bits.{has, both, either, is_sub, but_not, with_row, rows_below, Inside, lowest, without_lowest, size_below, compare_bits, word_bits};

use std::cmp::Ordering;

mod members;

pub use members::Members;

// The word that holds every position.
pub const ALL_ROWS: u64 = u64::MAX;

// Is row k in the set?
pub fn has_row(set: u64, k: usize) -> bool
    requires { k < word_bits }
    ensures { result ≡ has set k }
{
    (set >> k) % 2 == 1
}

// The rows that are in both.
pub fn meet(a: u64, b: u64) -> u64
    ensures { result ≡ both a b }
{
    a & b
}

// The rows that are in one of them or in both.
pub fn unite(a: u64, b: u64) -> u64
    ensures { result ≡ either a b }
{
    a | b
}

// Is every row of a in b?
pub fn is_sub(a: u64, b: u64) -> bool
    ensures { result ≡ is_sub a b }
{
    meet(a, b) == a
}

// The set with row k.
pub fn with_row(set: u64, k: usize) -> u64
    requires { k < word_bits }
    ensures { result ≡ with_row set k }
{
    set | (1u64 << k)
}

// The rows of a that are not in b.
pub fn minus(a: u64, b: u64) -> u64
    ensures { result ≡ but_not a b }
{
    a ^ (a & b)
}

// The rows below i.
pub fn below(i: usize) -> u64
    requires { i < word_bits }
    ensures { result ≡ rows_below i }
{
    (1u64 << i) - 1
}

// The smallest row of a set.
pub fn lowest_row(set: u64) -> usize
    requires { 0 < set }
    ensures { result ≡ lowest set }
{
    u64::trailing_zeros(set) as usize
}

// The set without its smallest row.
pub fn without_lowest(set: u64) -> u64
    requires { 0 < set }
    ensures { result ≡ without_lowest set }
{
    set & (set - 1)
}

// How many rows are in the set.
pub fn size(set: u64) -> usize
    ensures { (n : ℕ) → Inside set n → result ≡ size_below n set }
{
    set.count_ones() as usize
}

// Set order, by the smallest row that only one of them holds. `cmp` of both by `reverse_bits` is one line, but hides that, and reverses two
// words a comparison.
pub fn compare(a: u64, b: u64) -> Ordering
    ensures { result ≡ compare_bits a b }
{
    if a == b {
        return Ordering::Equal;
    }
    let row = u64::trailing_zeros(a ^ b);
    if (a >> row) % 2 == 1 {
        Ordering::Less
    } else {
        Ordering::Greater
    }
}
