// Sets as lines of positions.
use bitsets::Members;
use std::io;

// The positions of a set.
fn set(rt: &impl Print, set: u64) -> io::Result<()> {
    for k in Members::of(set) {
        print!(rt; " {k}")?;
    }
    println!(rt)
}

pub(crate) fn sets(rt: &impl Print, sets: &[u64]) -> io::Result<()> {
    for word in sets {
        set(rt, *word)?;
    }
    Ok(())
}
