// Answers and buffers as lines. A call stands where its case does, between `lend`, and `answer` and `buffer`: a function that takes it as a
// closure would name the number of its counts in the bound `FnOnce`, which the borrow checker doesn't cover.
use definitions::Refusal;
use std::alloc::{AllocError, Global};
use std::io;

// What every word of a lent buffer holds before a call.
const FOUND: u32 = 0x5a5a_5a5a;

// A buffer of some words to lend to a call.
pub fn lend(alloc: Global, words: usize) -> Result<Vec<u32>, AllocError> {
    vec![in alloc; FOUND; words]
}

// The answer of a call: its counts, or the refusal.
pub fn answer<const N: usize>(
    rt: &impl Print,
    answer: Result<[usize; N], Refusal>,
) -> io::Result<()> {
    match answer {
        Ok(counts) => {
            print!(rt; ": done")?;
            for count in counts {
                print!(rt; " {count}")?;
            }
            println!(rt)
        }
        Err(refusal) => println!(rt; ": {refusal}"),
    }
}

// How long the rest of a buffer is that a call left alone, and how much of it is as found.
pub fn rest<T: PartialEq>(rt: &impl Print, rest: &[T], found: &T) -> io::Result<()> {
    let past = rest.len();
    let kept = rest.iter().filter(|item| *item == found).count();
    println!(rt; "past {past} kept {kept}")
}

// One number made of all words and their places. The product too is of a remainder, so that no step overflows whatever it begins with.
fn digest(words: &[u32]) -> u64 {
    words
        .iter()
        .fold(0, |d, word| (d % 65521 * 31 + u64::from(*word)) % 65521)
}

// The written words, or a number made of them where they are more than 64.
fn written(rt: &impl Print, words: &[u32]) -> io::Result<()> {
    if words.len() <= 64 {
        for word in words {
            print!(rt; " {word:08x}")?;
        }
        println!(rt)
    } else {
        let digest = digest(words);
        println!(rt; " digest {digest}")
    }
}

// The words that were written at the front of a buffer, if any, and how many of the others are as found.
pub fn buffer(rt: &impl Print, words: &[u32], end: usize) -> io::Result<()> {
    let Some((front, back)) = words.split_at_checked(end) else {
        return Ok(());
    };
    if !front.is_empty() {
        written(rt, front)?;
    }
    print!(rt; " ")?;
    rest(rt, back, &FOUND)
}
