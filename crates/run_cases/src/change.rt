// Changes of an image or a list, before a call is given it.
use std::alloc::{AllocError, Global};

// A word put at a place, or a length to which the words are cut or filled with zeros.
#[derive(Clone, Copy)]
pub enum Change {
    Word(usize, u32),
    Length(usize),
}

// The words with the changes made one after the other.
pub fn changed(alloc: Global, words: &[u32], changes: &[Change]) -> Result<Vec<u32>, AllocError> {
    let mut changed = words.to_vec(alloc)?;
    for change in changes {
        match *change {
            Change::Word(at, word) => {
                if let Some(old) = changed.get_mut(at) {
                    *old = word;
                }
            }
            Change::Length(length) => changed.resize(length, 0)?,
        }
    }
    Ok(changed)
}
