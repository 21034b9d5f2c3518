// Complement union at its limit of 1,024 sets, and above it: the fan, and a further table.
use crate::complement;
use run_cases::{fan, image};
use std::io;

// Each case: its name, the further table, and the words of the table buffer and of the set buffer.
const CASES: [(&str, &str, usize, usize); 6] = [
    ("1,024 sets", "0|", 11280, 4100),
    ("1,024 sets, buffers exact", "0|", 11276, 4097),
    ("1,024 sets, table one short", "0|", 11275, 4097),
    ("1,024 sets, sets one short", "0|", 11276, 4096),
    ("1,025 sets", "0| 2", 12000, 12000),
    ("1,025 sets, no room", "0| 2", 0, 0),
];

pub(crate) fn run(rt: &(impl Print + AllocGlobal)) -> io::Result<()> {
    let fan = fan::image(rt.alloc())?;
    for (name, second, room, set_room) in CASES {
        let table = image::of_text(rt.alloc(), second)?;
        print!(rt; "{name}")?;
        complement(rt, &fan, &table, room, set_room)?;
    }
    Ok(())
}
