// Runs of the reader of set lists: each case's answer, the words written, and how many of the words past them are as found.
#![tactic(auto)]

mod board;
mod made;

use run_cases::print;
use std::io;

// Reads a list of sets of some rows into a buffer of some words, and prints the answer behind the name of the case.
fn read(
    rt: &(impl Print + AllocGlobal),
    name: &str,
    list: &[u32],
    rows: u32,
    room: usize,
) -> io::Result<()> {
    let mut buffer = print::lend(rt.alloc(), room)?;
    print!(rt; "{name}")?;
    let answer = set_lists::read_set_list(list, rows, &mut buffer);
    print::answer(rt, answer.map(|done| [done.sets, done.words]))?;
    print::buffer(rt, &buffer, answer.map_or(0, |done| done.words))
}

fn main(rt: HostRuntime) -> io::Result<()> {
    board::run(&rt)?;
    made::run(&rt)
}
