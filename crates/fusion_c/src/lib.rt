// The C interface of the three unions, of the reader of set lists and of pages. A slice is a pointer and a length in C. Each call returns the
// number of its refusal, 0 for done, and puts the words of its answer into `answer`, as far as they fit.
#![tactic(auto, using(crate::proofs::Bounds::counts_fit))]

mod answers;
mod counts;

ghost use Rattle.definitions.specs.Promise.{OuterPromise, MinimumPromise, ComplementPromise, ReadPromise, PagePromise};
ghost use Rattle.definitions.specs.CInterface.{outer_words, minimum_words, complement_words, list_words, page_words, Answered};

use crate::answers::put_answer;

#[unsafe(no_mangle)]
pub extern "C" fn fusion_outer_union(
    first: &[u32],
    second: &[u32],
    table: &mut [u32],
    answer: &mut [u32],
) -> u32
    ensures { Answered
        (λ o. OuterPromise first.now second.now table.old o table.new)
        outer_words answer.old result answer.new }
{
    put_answer(unions::outer_union(first, second, table), answer)
}

#[unsafe(no_mangle)]
pub extern "C" fn fusion_minimum_union(
    first: &[u32],
    second: &[u32],
    table: &mut [u32],
    answer: &mut [u32],
) -> u32
    ensures { Answered
        (λ o. MinimumPromise first.now second.now table.old o table.new)
        minimum_words answer.old result answer.new }
{
    put_answer(unions::minimum_union(first, second, table), answer)
}

#[unsafe(no_mangle)]
pub extern "C" fn fusion_complement_union(
    first: &[u32],
    second: &[u32],
    table: &mut [u32],
    sets: &mut [u32],
    answer: &mut [u32],
) -> u32
    ensures { Answered
        (λ o. ComplementPromise first.now second.now table.old sets.old o
        table.new sets.new)
        complement_words answer.old result answer.new }
{
    put_answer(unions::complement_union(first, second, table, sets), answer)
}

#[unsafe(no_mangle)]
pub extern "C" fn fusion_read_set_list(
    list: &[u32],
    rows: u32,
    words: &mut [u32],
    answer: &mut [u32],
) -> u32
    ensures { Answered
        (λ o. ReadPromise list.now rows words.old o words.new)
        list_words answer.old result answer.new }
{
    put_answer(set_lists::read_set_list(list, rows, words), answer)
}

#[unsafe(no_mangle)]
pub extern "C" fn fusion_page(image: &[u32], page: u32, bytes: &mut [u8], answer: &mut [u32]) -> u32
    ensures { Answered
        (λ o. PagePromise image.now page bytes.old o bytes.new)
        page_words answer.old result answer.new }
{
    put_answer(pages::page(image, page, bytes), answer)
}
