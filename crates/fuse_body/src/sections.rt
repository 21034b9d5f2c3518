// The parts of the listing, each from the answer and the words of a call. The two images go beside each other, as the calls and the definitions
// take them, and so do the fused words, the sets and their counts, as the call has left them.
ghost use Rattle.std.specs.Prelude.{◌≡◌};
ghost use Rattle.definitions.specs.Image.{column_count};
ghost use Rattle.definitions.specs.Program.{union_text, minimum_text, listing};
ghost use Rattle.fuse_body.specs.Parts.{Section, FusedWords};
ghost use Rattle.listing.specs.Lines.{HasRows, first_rows};
ghost use Rattle.rows.specs.Rows.{rows_of};
ghost use Rattle.text.specs.Writer.{HasRoom, Wrote};

use crate::answer::TABLE;
use definitions::{ComplementCounts, SET_WIDTH};
use listing::{sets_lines, table_lines, union_lines};
use rows::Rows;
use text::Writer;

// The first `len` rows of the image in a lent buffer, of which the call has told how many they are.
fn first_rows(image: &[u32], len: usize) -> Rows
    requires { HasRows image.now len }
    ensures columns { result.width ≡ column_count image.now }
    ensures first { rows_of result ≡ first_rows image.now len }
{
    let width = words::columns(image[0]) as usize;
    Rows {
        cells: &image[1 + width..],
        width,
        len,
    }
}

// The columns and T. Where complement union isn't refused, outer union isn't.
fn put_union(a: &[u32], b: &[u32], table: &mut [u32], out: &mut Writer)
    requires { Section a.now b.now table.old out.old (union_text a.now b.now) }
    ensures { Wrote out.old (union_text a.now b.now) out.new }
{
    let Ok(counts) = unions::outer_union(a, b, table) else {
        return;
    };
    // From here on the buffer is lent to be read alone, so that its column words and its rows can be lent beside each other.
    let image = &table[..];
    let rows = first_rows(image, counts.rows);
    union_lines(&image[1..1 + rows.width], &rows, counts.filled, out);
}

// The minimum union. Where complement union isn't refused, minimum union isn't. One function for this and `put_union`, over two calls with
// two kinds of counts, would be no plainer.
fn put_minimum(a: &[u32], b: &[u32], table: &mut [u32], out: &mut Writer)
    requires { Section a.now b.now table.old out.old (minimum_text a.now b.now) }
    ensures { Wrote out.old (minimum_text a.now b.now) out.new }
{
    let Ok(counts) = unions::minimum_union(a, b, table) else {
        return;
    };
    let numbers = [counts.rows, counts.filled, counts.pairs];
    let rows = first_rows(table, counts.rows);
    table_lines(b"minimum", &numbers, &rows, out);
}

// The whole listing, where complement union answered these counts and left these words.
pub(crate) fn put_listing(
    a: &[u32],
    b: &[u32],
    fused: &[u32],
    sets: &[u32],
    counts: ComplementCounts,
    out: &mut Writer,
)
    requires fused_words { FusedWords a.now b.now fused.now sets.now counts }
    requires room { HasRoom out.old (listing a.now b.now) }
    ensures { Wrote out.old (listing a.now b.now) out.new }
{
    let mut table = [0u32; TABLE];
    put_union(a, b, &mut table, out);
    put_minimum(a, b, &mut table, out);
    let (records, _) = sets[1..1 + counts.sets * SET_WIDTH].as_chunks();
    sets_lines(records, out);
    let numbers = [counts.rows, counts.filled];
    let rows = first_rows(fused, counts.rows);
    table_lines(b"fused", &numbers, &rows, out);
}
