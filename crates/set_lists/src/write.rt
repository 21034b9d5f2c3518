// The writing of a set list: a header, and a record for each set.
ghost use Rattle.std.specs.Prelude.{◌≡◌, ◌++◌, ◌+◌, ◌*◌, ◌%◌, ◌^◌, ◌≤◌, ◌<◌, length, drop};
ghost use Rattle.definitions.specs.Limits.{mark_words, set_width};
ghost use Rattle.definitions.specs.Word.{word_of};
ghost use Rattle.definitions.specs.SetList.{record_of, list_of};
ghost use Rattle.set_lists.specs.Records.{records_of, Listable};

use crate::Record;
use definitions::{MARKS_PER_WORD, SET_WIDTH};

// The word that marks the 30 lowest positions of a set.
fn mark_word(set: u64) -> u32
    ensures { result ≡ word_of 2 (set % 2 ^ 30) }
{
    words::word_of(2, (set & 0x3fffffff) as u32)
}

// The record of a set: its mark words, 30 positions each, and the position of its joined row.
fn record_of(set: u64, position: u32) -> Record
    requires { position < 2 ^ 30 }
    ensures { result ≡ record_of mark_words set position }
{
    let second = set >> MARKS_PER_WORD;
    let third = second >> MARKS_PER_WORD;
    [
        mark_word(set),
        mark_word(second),
        mark_word(third),
        words::word_of(1, position),
    ]
}

// Writes the set list of sets whose joined rows have these positions in the fused table, over the front of the buffer. Sets and positions are two
// lists: the search makes the one, the ordering of the joined rows the other.
pub fn write_list(sets: &[u64], positions: &[u32], buffer: &mut [u32])
    requires { Listable sets.now positions.now × (1 + set_width * length sets.now ≤ length buffer.old) }
    ensures { buffer.new
        ≡ list_of mark_words (records_of sets.now positions.now)
        ++ drop (1 + set_width * length sets.now) buffer.old }
{
    buffer[0] = words::header_word(sets.len() as u32, SET_WIDTH as u32);
    // The index is counted, since std says nothing of what a slice holds after `as_chunks_mut` or `chunks_exact_mut`. Four words are copied without
    // a call.
    let mut at = 1;
    for (set, position) in sets.iter().zip(positions) {
        let end = at + SET_WIDTH;
        buffer[at..end].copy_from_slice(&record_of(*set, *position));
        at = end;
    }
}
