// Where the counts of each call's done answer stand among its words.
ghost use mathlib.Core.Path.{refl};
ghost use Rattle.definitions.specs.Answer.{outer_says, minimum_says, complement_says, read_says, page_says};
ghost use Rattle.definitions.specs.CInterface.{outer_words, minimum_words, complement_words, list_words, page_words};

use crate::answers::{ANSWER_WORDS, AnswerWords};
use definitions::{ComplementCounts, MinimumCounts, OuterCounts, ReadingCounts};

impl AnswerWords for OuterCounts {
    ghost says = { outer_says };

    ghost words_of = { outer_words };

    ghost laws = { λ r. refl };

    fn words(self) -> [u32; ANSWER_WORDS] {
        let rows = self.rows as u32;
        let words = self.words as u32;
        let filled = self.filled as u32;
        [0, 0, rows, words, filled, 0, 0, 0, 0]
    }
}

impl AnswerWords for MinimumCounts {
    ghost says = { minimum_says };

    ghost words_of = { minimum_words };

    ghost laws = { λ r. refl };

    fn words(self) -> [u32; ANSWER_WORDS] {
        let rows = self.rows as u32;
        let words = self.words as u32;
        let filled = self.filled as u32;
        let pairs = self.pairs as u32;
        [0, 0, rows, words, filled, pairs, 0, 0, 0]
    }
}

impl AnswerWords for ComplementCounts {
    ghost says = { complement_says };

    ghost words_of = { complement_words };

    ghost laws = { λ r. refl };

    fn words(self) -> [u32; ANSWER_WORDS] {
        let rows = self.rows as u32;
        let words = self.words as u32;
        let filled = self.filled as u32;
        let sets = self.sets as u32;
        let set_words = self.set_words as u32;
        [0, 0, rows, words, filled, 0, sets, set_words, 0]
    }
}

impl AnswerWords for ReadingCounts {
    ghost says = { read_says };

    ghost words_of = { list_words };

    ghost laws = { λ r. refl };

    fn words(self) -> [u32; ANSWER_WORDS] {
        let words = self.words as u32;
        let sets = self.sets as u32;
        [0, 0, 0, words, 0, 0, sets, 0, 0]
    }
}

// The pages.
impl AnswerWords for usize {
    ghost says = { page_says };

    ghost words_of = { page_words };

    ghost laws = { λ r. refl };

    fn words(self) -> [u32; ANSWER_WORDS] {
        [0, 0, 0, 0, 0, 0, 0, 0, self as u32]
    }
}
