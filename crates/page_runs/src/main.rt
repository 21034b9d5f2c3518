// Runs of the page call: the fused table of document 01, tables of many rows and columns, and refusals.
#![tactic(auto)]

mod example;
mod refusals;
mod show;
mod sizes;
mod table;

use std::io;

fn main(rt: HostRuntime) -> io::Result<()> {
    example::run(&rt)?;
    sizes::run(&rt)?;
    refusals::run(&rt)
}
