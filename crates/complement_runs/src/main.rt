// Runs of complement union: each case's answer, the words written, and how many of the words past them are as found, in both buffers.
#![tactic(auto)]

mod many;
mod marks;
mod none;
mod paper;
mod room;
mod three;

use run_cases::{image, print};
use std::io;

// Complement union of two tables in buffers of some words, with the answer printed. Returns the words written into the table buffer.
fn complement(
    rt: &(impl Print + AllocGlobal),
    a: &[u32],
    b: &[u32],
    room: usize,
    set_room: usize,
) -> io::Result<Vec<u32>> {
    let mut table = print::lend(rt.alloc(), room)?;
    let mut list = print::lend(rt.alloc(), set_room)?;
    let answer = unions::complement_union(a, b, &mut table, &mut list);
    print::answer(
        rt,
        answer.map(|done| [
            done.rows,
            done.words,
            done.filled,
            done.sets,
            done.set_words,
        ]),
    )?;
    let words = answer.map_or(0, |done| done.words);
    print::buffer(rt, &table, words)?;
    print::buffer(rt, &list, answer.map_or(0, |done| done.set_words))?;
    table.truncate(words);
    Ok(table)
}

// A case: its name, its two tables, and the words of the table buffer and of the set buffer.
type Case = (&'static str, &'static str, &'static str, usize, usize);

// Complement union of the tables of each case, behind its name.
fn cases(rt: &(impl Print + AllocGlobal), cases: &[Case]) -> io::Result<()> {
    for (name, first, second, room, set_room) in cases {
        let (a, b) = image::pair(rt.alloc(), *first, *second)?;
        print!(rt; "{name}")?;
        complement(rt, &a, &b, *room, *set_room)?;
    }
    Ok(())
}

fn main(rt: HostRuntime) -> io::Result<()> {
    cases(&rt, &paper::CASES)?;
    cases(&rt, &room::CASES)?;
    marks::run(&rt)?;
    cases(&rt, &none::CASES)?;
    three::run(&rt)?;
    many::run(&rt)
}
