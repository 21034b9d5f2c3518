// The programs `fuse` of document 01 and `fuse_pages` of request A3: the text that each writes for the bytes of two files, and the run
// that reads them and writes it.
#![tactic(auto)]

mod answer;
mod file;
mod output;
mod sections;

pub use answer::{MAX_TEXT, fuse_text, output_text};
pub use output::{run, run_output};
