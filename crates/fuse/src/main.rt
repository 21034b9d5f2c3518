// The program `fuse` of document 01: it fuses board.tbl and plant.tbl.
#![tactic(auto)]

use std::io;

fn main(rt: HostRuntime) -> io::Result<()> {
    fuse_body::run(&rt, b"board.tbl", b"plant.tbl")
}
