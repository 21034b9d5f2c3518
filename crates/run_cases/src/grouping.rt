// Three tables united in either grouping.
use std::io;

// Whether two calls wrote the same words. A refused call writes none, a done one a header at least.
pub fn compare(rt: &impl Print, left: &[u32], right: &[u32]) -> io::Result<()> {
    if left.is_empty() || right.is_empty() {
        println!(rt; " not both done")
    } else {
        let same = left == right;
        println!(rt; " same words {same}")
    }
}

// Both groupings by a union that prints its answer and gives the words that it wrote; these are handed to the next call. Returns the words of
// the second grouping.
pub fn both<F: Fn(&[u32], &[u32]) -> io::Result<Vec<u32>>>(
    rt: &impl Print,
    x: &[u32],
    y: &[u32],
    z: &[u32],
    unite: F,
) -> io::Result<Vec<u32>>
    requires { F.IsAlwaysCallable unite }
{
    print!(rt; " first two")?;
    let first_two = unite(x, y)?;
    print!(rt; " with the third")?;
    let left = unite(&first_two, z)?;
    print!(rt; " last two")?;
    let last_two = unite(y, z)?;
    print!(rt; " with the first")?;
    let right = unite(x, &last_two)?;
    compare(rt, &left, &right)?;
    Ok(right)
}
