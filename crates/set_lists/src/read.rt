// Request A1: the members of a stored set list as positions.
ghost use Rattle.std.specs.Prelude.{◌≡◌, IfOk};
ghost use Rattle.definitions.specs.Limits.{mark_words};
ghost use Rattle.definitions.specs.Answer.{read_says};
ghost use Rattle.definitions.specs.Reading.{records_in};
ghost use Rattle.definitions.specs.ReadBack.{list_number};
ghost use Rattle.definitions.specs.Refusal.{number_said};
ghost use Rattle.definitions.specs.Promise.{ReadPromise};

use crate::Record;
use crate::checks::{all_records, records_in};
use crate::members::{count_words, write_entries};
use crate::order::in_order;
use definitions::{Question, ReadingCounts, Refusal};

// The records of the list, or the first check that it fails. Each is made of all records before the next.
fn check_list(list: &[u32], rows: u32) -> Result<&[Record], Question>
    ensures number { number_said result ≡ list_number mark_words rows list.now }
    ensures records { IfOk result (λ r. r.now ≡ records_in mark_words list.now) }
{
    let records = records_in(list, rows).ok_or(Question::ListLayout)?;
    if !all_records(records, rows) {
        return Err(Question::Records);
    }
    if !in_order(records) {
        return Err(Question::SetOrder);
    }
    Ok(records)
}

// Writes the sets of a list for a T of so many rows over the front of the buffer, or refuses and changes nothing.
pub fn read_set_list(list: &[u32], rows: u32, words: &mut [u32]) -> Result<ReadingCounts, Refusal>
    ensures { ReadPromise list.now rows words.old (read_says result) words.new }
{
    let records = check_list(list, rows)?;
    if words.len() < count_words(records) {
        return Err(Refusal::from(Question::TableRoom));
    }
    let words = write_entries(records, words);
    Ok(ReadingCounts {
        sets: records.len(),
        words,
    })
}
