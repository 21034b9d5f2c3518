// Runs of outer union: each case's answer, the words written, and how many of the words past them are as found.
#![tactic(auto)]

mod cases;
mod spoiled;

use run_cases::print;
use std::io;

// Outer union of two tables in a buffer of some words, with the answer printed behind the name of the case.
fn outer(
    rt: &(impl Print + AllocGlobal),
    name: &str,
    a: &[u32],
    b: &[u32],
    room: usize,
) -> io::Result<()> {
    let mut table = print::lend(rt.alloc(), room)?;
    print!(rt; "{name}")?;
    let answer = unions::outer_union(a, b, &mut table);
    print::answer(rt, answer.map(|done| [done.rows, done.words, done.filled]))?;
    print::buffer(rt, &table, answer.map_or(0, |done| done.words))
}

fn main(rt: HostRuntime) -> io::Result<()> {
    cases::run(&rt)?;
    spoiled::run(&rt)
}
