// The words of an answer in a lent buffer.
ghost use Rattle.std.specs.Prelude.{◌≡◌, ℕ, List, Result, Ok, Err};
ghost use Rattle.definitions.specs.Answer.{Outcome};
ghost use Rattle.definitions.specs.declared.refusal.Refusal.{Refusal};
ghost use Rattle.definitions.specs.CInterface.{refusal_words};
ghost use Rattle.definitions.specs.Refusal.{question_number, table_number};
ghost use Rattle.fusion_c.specs.Words.{PutWords, CountsFit};

use definitions::Refusal;

// The words of an answer.
pub(crate) const ANSWER_WORDS: usize = 9;

// What a call answers with when it is done: `says` is the outcome that its answer tells, and `words_of` an outcome's nine words.
pub(crate) trait AnswerWords {
    ghost says: { Result Self Refusal → Outcome };

    ghost words_of: { Outcome → List ℕ };

    fn words(self) -> [u32; ANSWER_WORDS]
        requires { CountsFit (says (Ok self)) }
        ensures { result ≡ words_of (says (Ok self)) };

    ghost laws: { (r : Refusal) → words_of (says (Err r)) ≡ refusal_words (question_number r.question) (table_number r.subject) };
}

// Puts the words of an answer, done or refused, as far as they fit; its number.
pub(crate) fn put_answer<A: AnswerWords>(said: Result<A, Refusal>, answer: &mut [u32]) -> u32
    requires { CountsFit (A.says said) }
    ensures { PutWords (A.words_of (A.says said)) answer.old result answer.new }
{
    match said {
        Ok(counts) => put_words(&counts.words(), answer),
        Err(refusal) => put_refusal(refusal, answer),
    }
}

// Puts the words as far as they fit; the first of them, the number.
fn put_words(words: &[u32; ANSWER_WORDS], answer: &mut [u32]) -> u32
    ensures { PutWords words.now answer.old result answer.new }
{
    let room = answer.len().min(ANSWER_WORDS);
    lists::write_over(&words[..room], answer, 0);
    words[0]
}

// Puts the words of a refusal as far as they fit; its number.
fn put_refusal(refusal: Refusal, answer: &mut [u32]) -> u32
    ensures { PutWords (refusal_words (question_number refusal.question) (table_number refusal.subject))
        answer.old result answer.new }
{
    let number = refusal.question.number();
    let table = refusal.subject.number();
    put_words(&[number, table, 0, 0, 0, 0, 0, 0, 0], answer)
}
