// Rows written one after the other.
ghost use Rattle.std.specs.Prelude.{◌≡◌, ◌*◌, ◌≤◌, length};
ghost use mathlib.Core.List.{flatten};
ghost use Rattle.std.proofs.Math.Seq.{paste};
ghost use Rattle.rows.specs.Indices.{rows_at, Below};

use crate::named::Rows;
use lists::write_over;

impl<'a> Rows<'a> {
    // Writes the rows at indices over the front of dst.
    pub fn write_rows(&self, order: &[u32], dst: &mut [u32])
        requires { Below self.now.len order.now
            × (length order.now * self.now.width ≤ length dst.old) }
        ensures { dst.new ≡ paste dst.old 0
            (flatten (rows_at self.now.width self.now.cells.now order.now)) (length order.now * self.now.width) }
    {
        // Not by chunks_exact_mut: a row may have no word, and std says nothing of what it leaves.
        for (k, i) in order.iter().enumerate() {
            write_over(self.row(*i as usize), dst, k * self.width);
        }
    }
}
