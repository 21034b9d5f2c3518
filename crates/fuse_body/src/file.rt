// Words from bytes, low byte first.
ghost use Rattle.std.specs.Prelude.{◌*◌, ◌≤◌, length};
ghost use Rattle.fuse_body.specs.Parts.{Decoded};

// The bytes of a word.
pub(crate) const WORD_BYTES: usize = 4;

// Puts the words of `bytes` at the start of `words`, and answers how many they are.
pub(crate) fn decode(bytes: &[u8], words: &mut [u32]) -> usize
    requires { length bytes.now ≤ 4 * length words.old }
    ensures { Decoded bytes.now words.new result }
{
    let (chunks, _) = bytes.as_chunks::<WORD_BYTES>();
    // By index: std says nothing of a slice after `zip` of its `iter_mut`.
    for (i, chunk) in chunks.iter().enumerate() {
        words[i] = u32::from_le_bytes(*chunk);
    }
    chunks.len()
}
