// Runs of the search for all maximal sets: how many each graph has, and where there are few, which.
#![tactic(auto)]

mod check;
mod graph;
mod print;

ghost use Rattle.std.specs.Prelude.{◌≤◌};
ghost use Rattle.definitions.specs.Limits.{max_union_rows};

use definitions::{MAX_ROWS, MAX_SETS, MAX_UNION_ROWS};
use std::io;

// Prints a title, the number of sets of a graph, and the sets where there are at most four. The graph's n rows are joined where two
// different ones complement each other.
fn show<F: Fn(usize, usize) -> bool>(
    rt: &impl Print,
    title: &str,
    n: usize,
    complements: F,
) -> io::Result<()>
    requires rows { n ≤ max_union_rows }
    requires call { F.IsAlwaysCallable complements }
{
    let mut words = [0; MAX_UNION_ROWS];
    let neighbours = &mut words[..n];
    graph::fill(neighbours, complements);
    print!(rt; "{title}: ")?;
    if !check::is_graph(neighbours) {
        return println!(rt; "no graph");
    }
    let mut list = [0; MAX_SETS + 1];
    let found = cliques::find_sets(neighbours, &mut list);
    // More than may be listed are printed as one more.
    let count = found.unwrap_or(MAX_SETS + 1);
    println!(rt; "{count}")?;
    if count <= 4 {
        print::sets(rt, &list[..count])?;
    }
    Ok(())
}

// Graphs of rows apart, together, in a path, in triples and in pairs.
fn plain(rt: &impl Print) -> io::Result<()> {
    show(rt, "no row", 0, |_, _| false)?;
    show(rt, "one row", 1, |_, _| false)?;
    show(rt, "4 rows in a path", 4, |j, k| j.abs_diff(k) == 1)?;
    show(rt, "64 rows apart", MAX_UNION_ROWS, |_, _| false)?;
    show(rt, "64 rows together", MAX_UNION_ROWS, |_, _| true)?;
    show(rt, "18 rows in triples", 18, |j, k| j / 3 != k / 3)?;
    show(rt, "63 rows in triples", 63, |j, k| j / 3 != k / 3)?;
    show(rt, "20 rows in pairs", 20, |j, k| j / 2 != k / 2)?;
    // row 20 complements none
    show(
        rt,
        "20 rows in pairs, and one",
        21,
        |j, k| j < 20 && k < 20 && j / 2 != k / 2,
    )
}

// Graphs in which the rows have more in common.
fn tangled(rt: &impl Print) -> io::Result<()> {
    // Of each of 32 devices the board's row, then of each the plant's. The board's rows complement each other and the plant's rows of
    // other devices; the plant's rows are told apart by their first column, and each subsumes the board's row of its device.
    show(rt, "64 rows of 32 devices", MAX_UNION_ROWS, |j, k| {
        (j < MAX_ROWS || k < MAX_ROWS) && j % MAX_ROWS != k % MAX_ROWS
    })?;
    // Rows complement each other unless their bits together leave that rest in the division by 11.
    show(
        rt,
        "64 rows, rest 1",
        MAX_UNION_ROWS,
        |j, k| (j | k) % 11 != 1,
    )?;
    show(
        rt,
        "64 rows, rest 5",
        MAX_UNION_ROWS,
        |j, k| (j | k) % 11 != 5,
    )?;
    // Rows of different groups of four do, and 44 rows complement all others: those from 20 on, or those below 44.
    show(rt, "64 rows, 44 common last", MAX_UNION_ROWS, |j, k| {
        20 <= j || 20 <= k || j / 4 != k / 4
    })?;
    show(rt, "64 rows, 44 common first", MAX_UNION_ROWS, |j, k| {
        j < 44 || k < 44 || j / 4 != k / 4
    })?;
    show(rt, "64 rows in two groups", MAX_UNION_ROWS, |j, k| {
        (j < MAX_ROWS) != (k < MAX_ROWS)
    })?;
    // Rows that follow each other in a part of four rows do.
    show(rt, "64 rows in parts of four", MAX_UNION_ROWS, |j, k| {
        j / 4 == k / 4 && j.abs_diff(k) == 1
    })?;
    show(rt, "5 rows in parts of four", 5, |j, k| {
        j / 4 == k / 4 && j.abs_diff(k) == 1
    })
}

fn main(rt: HostRuntime) -> io::Result<()> {
    plain(&rt)?;
    tangled(&rt)
}
