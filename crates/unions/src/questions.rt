// The questions 1 to 8, put to a pair of images, and 10 and 11, put to the lent buffers.
ghost use Rattle.std.specs.Prelude.{◌≤◌, length};
ghost use Rattle.definitions.specs.Limits.{max_ids};
ghost use Rattle.unions.specs.Questions.{Checked, Roomy};

use definitions::{MAX_COLUMNS, MAX_ROWS, Question, Refusal, Subject};
use tables::Pair;

// Puts the questions 1 to 8; an accepted pair comes with the ids of both images, which are written over the list.
pub(crate) fn check_pair<'a>(
    a: &'a [u32],
    b: &'a [u32],
    all: &'a mut [u32],
) -> Result<Pair<'a>, Refusal>
    requires { max_ids ≤ length all.old }
    ensures { Checked a.now b.now result }
{
    let first = images::accept::<MAX_ROWS>(a, Subject::First)?;
    let second = images::accept::<MAX_ROWS>(b, Subject::Second)?;
    let columns = tables::both_ids(first, second, all);
    if MAX_COLUMNS < columns {
        return Err(Refusal::from(Question::UnionColumns));
    }
    Ok(Pair {
        first,
        second,
        ids: &all[..columns],
    })
}

// The questions 10 and 11, for so many words and so much room. `images::put_image` and the reader put 10 alone: a function for the one test
// would be no shorter.
pub(crate) fn check_room(
    words: usize,
    room: usize,
    set_words: usize,
    set_room: usize,
) -> Result<(), Refusal>
    ensures { Roomy words room set_words set_room result }
{
    if room < words {
        return Err(Refusal::from(Question::TableRoom));
    }
    if set_room < set_words {
        return Err(Refusal::from(Question::SetRoom));
    }
    Ok(())
}
