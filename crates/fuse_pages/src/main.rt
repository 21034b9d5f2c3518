// The program `fuse_pages` of request A3: it fuses board.tbl and plant.tbl, and prints the pages of the fused table.
#![tactic(auto)]

use definitions::Output;
use std::io;

fn main(rt: HostRuntime) -> io::Result<()> {
    fuse_body::run_output(&rt, Output::Pages, b"board.tbl", b"plant.tbl")
}
