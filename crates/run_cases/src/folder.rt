// Runs of a program on folders of data.
use std::io;

// Prints a title, and runs a program on the two files of a folder.
pub fn run<F: FnOnce(&str, &str) -> io::Result<()>>(
    rt: &(impl Print + AllocGlobal),
    title: &str,
    folder: &str,
    program: F,
) -> io::Result<()>
    requires { F.IsAlwaysCallable program }
{
    println!(rt; "{title}:")?;
    let board = format!(in rt.alloc(); "{folder}/board.tbl")?;
    let plant = format!(in rt.alloc(); "{folder}/plant.tbl")?;
    program(&board, &plant)
}

// The same for each case: its title, and its folder.
pub fn run_all<F: Fn(&str, &str) -> io::Result<()>>(
    rt: &(impl Print + AllocGlobal),
    cases: &[(&str, &str)],
    program: F,
) -> io::Result<()>
    requires { F.IsAlwaysCallable program }
{
    for (title, folder) in cases {
        run(rt, *title, *folder, &program)?;
    }
    Ok(())
}
