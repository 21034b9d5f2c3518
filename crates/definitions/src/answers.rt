// "Answers are an enum: done with its counts": the counts of each call. A page is done with the number of pages alone.

// Of outer union: rows, words written and filled cells of the result.
#[derive(Clone, Copy, Debug, PartialEq, Eq)]
pub struct OuterCounts {
    pub rows: usize,
    pub words: usize,
    pub filled: usize,
}

// Of minimum union, with the pairs tried.
#[derive(Clone, Copy, Debug, PartialEq, Eq)]
pub struct MinimumCounts {
    pub rows: usize,
    pub words: usize,
    pub filled: usize,
    pub pairs: usize,
}

// Of complement union, with the number of sets and the words of the set list.
#[derive(Clone, Copy, Debug, PartialEq, Eq)]
pub struct ComplementCounts {
    pub rows: usize,
    pub words: usize,
    pub filled: usize,
    pub sets: usize,
    pub set_words: usize,
}

// Of the reader of set lists: the number of sets, and the words written.
#[derive(Clone, Copy, Debug, PartialEq, Eq)]
pub struct ReadingCounts {
    pub sets: usize,
    pub words: usize,
}
