// Runs of minimum union: each case's answer, the words written, and how many of the words past them are as found.
#![tactic(auto)]

mod three;

use run_cases::{image, print};
use std::io;

// Each case: its name, its two tables, and the words of the buffer.
const CASES: [(&str, &str, &str, usize); 13] = [
    (
        "minimum of board and plant",
        ":;<| 73- 7-X 95Y",
        ":=;| 723 91-",
        30,
    ),
    ("minimum of no rows", "12|", "23|", 8),
    ("minimum of one row", "12| 3-", "12|", 8),
    ("minimum of one empty row", "12| --", "12|", 8),
    (
        "minimum, all subsumed by one",
        "123| 123 12- 1-3 -23",
        "123| 1-- -2- --3 ---",
        8,
    ),
    ("minimum, none subsumed", "12| 12 31 23", "12| -4 4-", 20),
    ("minimum, number 0 subsumes", "12| 0-", "12| --", 8),
    (
        "minimum, the cell none subsumes",
        "12| !- 0- !3 -!",
        "12| -- 04",
        16,
    ),
    ("minimum of marked columns", "a2| 3- 34", "2c| 4- 45", 16),
    (
        "minimum of 64 rows",
        "1| 0123456789:;<=>?@ABCDEFGHIJKLMNO",
        "2| 0123456789:;<=>?@ABCDEFGHIJKLMNO",
        140,
    ),
    ("minimum, buffer one word short", "12| 3- 34", "12|", 4),
    ("minimum, buffer exact", "12| 3- 34", "12|", 5),
    ("minimum of 17 columns", "12345678|", "9:;<=>?@A|", 0),
];

// Minimum union of two tables in a buffer of some words, with the answer printed. Returns the words written.
fn minimum(
    rt: &(impl Print + AllocGlobal),
    a: &[u32],
    b: &[u32],
    room: usize,
) -> io::Result<Vec<u32>> {
    let mut table = print::lend(rt.alloc(), room)?;
    let answer = unions::minimum_union(a, b, &mut table);
    print::answer(
        rt,
        answer.map(|done| [done.rows, done.words, done.filled, done.pairs]),
    )?;
    let words = answer.map_or(0, |done| done.words);
    print::buffer(rt, &table, words)?;
    table.truncate(words);
    Ok(table)
}

fn main(rt: HostRuntime) -> io::Result<()> {
    for (name, first, second, room) in CASES {
        let (a, b) = image::pair(rt.alloc(), first, second)?;
        print!(&rt; "{name}")?;
        minimum(&rt, &a, &b, room)?;
    }
    three::run(&rt)
}
