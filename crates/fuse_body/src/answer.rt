// The whole text of a program, from the bytes of two files.
ghost use Rattle.std.specs.Prelude.{◌≤◌, length};
ghost use Rattle.definitions.specs.TextPromise.{TextPromise};
ghost use Rattle.definitions.specs.Listing.{ragged_line, refused_line};
ghost use Rattle.definitions.specs.Refusal.{question_number, table_number};
ghost use Rattle.definitions.specs.Program.{max_bytes, max_text, listing, unions_text, read_text, fuse_text};
ghost use Rattle.definitions.specs.Outputs.{printed, whole_output};
ghost use Rattle.lists.specs.Written.{Fits, Written};
ghost use Rattle.fuse_body.specs.Parts.{FusedAnswer, FusedWords};

use crate::file::{WORD_BYTES, decode};
use crate::sections::put_listing;
use definitions::{ComplementCounts, MAX_COLUMNS, MAX_SETS, MAX_UNION_ROWS, Output, Refusal};
use text::Writer;

// "It reads at most 2,120 bytes a file": 530 words.
pub(crate) const BYTES: usize = 2120;

const WORDS: usize = BYTES / WORD_BYTES;

// "It lends 16,384 words for the table and 4,100 for the sets."
pub(crate) const TABLE: usize = 16384;

const SETS: usize = 4100;

// The longest row line, the longest set line, and all title lines. specs/Program of the definitions says why.
const ROW_BYTES: usize = 11 * MAX_COLUMNS + 1;

const SET_BYTES: usize = 3 * MAX_UNION_ROWS + 7;

const TITLE_BYTES: usize = 6 * MAX_COLUMNS + 8 + 4 * 26;

// No output is longer than this.
pub const MAX_TEXT: usize = TITLE_BYTES
    + (2 * MAX_UNION_ROWS + MAX_SETS) * ROW_BYTES
    + MAX_SETS * SET_BYTES;

// Each part puts its text over the front of the buffer and gives the length, as `pages::put_all` does, which takes no writer: so a writer
// is made where lines are written, and not once for all.

// The line of a ragged file, at the front of the buffer; its length.
fn put_ragged(name: &[u8], out: &mut [u8]) -> usize
    requires { Fits out.old 0 (ragged_line name.now) }
    ensures { Written out.old 0 (ragged_line name.now) out.new result }
{
    let mut line = Writer::new(out);
    listing::ragged_line(name, &mut line);
    line.length()
}

// The line of a refusal, at the front of the buffer; its length.
fn put_refused(refusal: Refusal, out: &mut [u8]) -> usize
    requires { Fits out.old 0 (refused_line (question_number refusal.question) (table_number refusal.subject)) }
    ensures { Written out.old 0 (refused_line (question_number refusal.question) (table_number refusal.subject)) out.new result }
{
    let mut line = Writer::new(out);
    listing::refusal_line(refusal, &mut line);
    line.length()
}

// The listing, at the front of the buffer; its length.
fn put_lines(
    a: &[u32],
    b: &[u32],
    fused: &[u32],
    sets: &[u32],
    counts: ComplementCounts,
    out: &mut [u8],
) -> usize
    requires fused_words { FusedWords a.now b.now fused.now sets.now counts }
    requires fits { Fits out.old 0 (listing a.now b.now) }
    ensures { Written out.old 0 (listing a.now b.now) out.new result }
{
    let mut lines = Writer::new(out);
    put_listing(a, b, fused, sets, counts, &mut lines);
    lines.length()
}

// The text for two images, where complement union answered this and left these words.
fn put_answer(
    output: Output,
    answer: Result<ComplementCounts, Refusal>,
    a: &[u32],
    b: &[u32],
    fused: &[u32],
    sets: &[u32],
    out: &mut [u8],
) -> usize
    requires fused_answer { FusedAnswer a.now b.now answer fused.now sets.now }
    requires room { max_text ≤ length out.old }
    ensures { Written out.old 0 (unions_text (printed output) a.now b.now) out.new result }
{
    match answer {
        Err(refusal) => put_refused(refusal, out),
        // one of two outputs, by name: `printed` tells it
        Ok(counts) => match output {
            Output::Listing => put_lines(a, b, fused, sets, counts, out),
            Output::Pages => pages::put_all(&fused[..counts.words], out),
        },
    }
}

// The text for two images, with the buffers that are lent to the call.
fn put_images(output: Output, a: &[u32], b: &[u32], out: &mut [u8]) -> usize
    requires { max_text ≤ length out.old }
    ensures { Written out.old 0 (unions_text (printed output) a.now b.now) out.new result }
{
    let mut fused = [0u32; TABLE];
    let mut sets = [0u32; SETS];
    let answer = unions::complement_union(a, b, &mut fused, &mut sets);
    put_answer(output, answer, a, b, &fused, &sets, out)
}

// The text for the bytes read.
fn put_read(output: Output, board: &[u8], plant: &[u8], out: &mut [u8]) -> usize
    requires read { (length board.now ≤ max_bytes) × (length plant.now ≤ max_bytes) }
    requires room { max_text ≤ length out.old }
    ensures { Written out.old 0 (read_text (printed output) board.now plant.now) out.new result }
{
    if board.len() % WORD_BYTES != 0 {
        return put_ragged(b"board.tbl", out);
    }
    if plant.len() % WORD_BYTES != 0 {
        return put_ragged(b"plant.tbl", out);
    }
    let mut first = [0u32; WORDS];
    let mut second = [0u32; WORDS];
    let a = decode(board, &mut first);
    let b = decode(plant, &mut second);
    put_images(output, &first[..a], &second[..b], out)
}

// The whole output of a program for the bytes of the two files goes to the front of `out`; its length. A buffer of fewer than MAX_TEXT
// bytes stays as it is, whatever the text: so no output depends on how long a buffer was lent.
pub fn output_text(output: Output, board: &[u8], plant: &[u8], out: &mut [u8]) -> Option<usize>
    ensures { TextPromise (whole_output output board.now plant.now) out.old result out.new }
{
    if out.len() < MAX_TEXT {
        return None;
    }
    let board = &board[..board.len().min(BYTES)];
    let plant = &plant[..plant.len().min(BYTES)];
    Some(put_read(output, board, plant, out))
}

// The whole listing for the bytes of the two files, as `output_text` puts it: the public name that stood before there were pages, and stays
// beside it.
pub fn fuse_text(board: &[u8], plant: &[u8], out: &mut [u8]) -> Option<usize>
    ensures { TextPromise (fuse_text board.now plant.now) out.old result out.new }
{
    output_text(Output::Listing, board, plant, out)
}
