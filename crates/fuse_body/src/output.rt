// A run of a program: it reads two files, and writes the whole output.
ghost use Rattle.std.specs.Prelude.{◌≡◌, take, ◌≤◌, length};

use crate::answer::{BYTES, MAX_TEXT, output_text};
use definitions::Output;
use std::fs::File;
use std::io;
use std::io::Read;
use std::rt::Files;

// Reads the start of a file, and answers how many bytes came. A file that is missing or can't be opened has none; where a read fails, the
// file ends. A path is bytes, as `run` and `run_output` are public and take any: one that is no text names no file.
fn read_bytes(rt: &impl Files, path: &[u8], bytes: &mut [u8]) -> usize
    ensures within { result ≤ length bytes.new }
    ensures read { result ≡ length (take result bytes.new) }
{
    let Ok(path) = str::from_utf8(path) else {
        return 0;
    };
    let Ok(mut file) = File::open(rt, path) else {
        return 0;
    };
    let mut done = 0;

    // Not an iterator or `read_to_end`, which says little after an `Err`: here what came before it counts.
    while done < bytes.len() {
        match file.read(&mut bytes[done..]) {
            Ok(0) | Err(_) => break,
            Ok(n) => done += n,
        }
    }
    done
}

// Writes the output for the bytes of two files. `run_output` lends MAX_TEXT bytes, so that no buffer is too short and nothing is cut.
fn write_text(
    rt: &impl Print,
    output: Output,
    board: &[u8],
    plant: &[u8],
    out: &mut [u8],
) -> io::Result<()> {
    let Some(length) = output_text(output, board, plant, out) else {
        return Ok(());
    };
    rt.write_all(&out[..length])
}

// Reads the files at two paths, board first, and writes the whole output.
pub fn run_output(
    rt: &(impl Files + Print),
    output: Output,
    board: &[u8],
    plant: &[u8],
) -> io::Result<()> {
    let mut first = [0u8; BYTES];
    let mut second = [0u8; BYTES];
    let m = read_bytes(rt, board, &mut first);
    let n = read_bytes(rt, plant, &mut second);
    let mut out = [0u8; MAX_TEXT];
    write_text(rt, output, &first[..m], &second[..n], &mut out)
}

// Reads the files at two paths, board first, and writes the whole listing: the public name that stood before there were pages, and stays
// beside `run_output`.
pub fn run(rt: &(impl Files + Print), board: &[u8], plant: &[u8]) -> io::Result<()> {
    run_output(rt, Output::Listing, board, plant)
}
