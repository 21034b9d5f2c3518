// Lists that complement union makes, read back.
use crate::read;
use run_cases::change::{Change, changed};
use run_cases::{fan, image};
use std::alloc::{AllocError, Global};
use std::io;

// Each case of two texts: its name, its tables, the rows of their union, and the words of the buffer.
const FEW: [(&str, &str, &str, u32, usize); 2] = [
    (
        "made of board and plant",
        ":;<| 73- 7-X 95Y",
        ":=;| 723 91-",
        5,
        14,
    ),
    (
        "made of four rows around",
        "1234| 12-- -23-",
        "1234| --34 1--4",
        4,
        16,
    ),
];

// The set list of complement union of two tables, with no words where it's refused.
fn set_list(alloc: Global, a: &[u32], b: &[u32]) -> Result<Vec<u32>, AllocError> {
    let mut table = vec![in alloc; 0; 12000]?;
    let mut list = vec![in alloc; 0; 4200]?;
    let answer = unions::complement_union(a, b, &mut table, &mut list);
    list.truncate(answer.map_or(0, |done| done.set_words));
    Ok(list)
}

pub(crate) fn run(rt: &(impl Print + AllocGlobal)) -> io::Result<()> {
    let alloc = rt.alloc();
    for (name, first, second, rows, room) in FEW {
        let (a, b) = image::pair(alloc, first, second)?;
        let list = set_list(alloc, &a, &b)?;
        read(rt, name, &list, rows, room)?;
    }
    many(rt)
}

// The list of the fan, of 1,024 sets of 20 rows, and a longer one.
fn many(rt: &(impl Print + AllocGlobal)) -> io::Result<()> {
    let alloc = rt.alloc();
    let a = fan::image(alloc)?;
    let b = image::of_text(alloc, "0|")?;
    let list = set_list(alloc, &a, &b)?;
    read(rt, "made of 1,024 sets", &list, 20, 12300)?;
    read(rt, "1,024 sets, one word short", &list, 20, 12287)?;
    let longer = changed(
        alloc,
        &list,
        &[Change::Word(0, 0xd004_0004), Change::Length(4101)],
    )?;
    read(rt, "1,025 sets", &longer, 20, 12300)
}
