// The book after a list of calls, and what holds of it.
ghost use Rattle.std.specs.Prelude.{◌≡◌, ℕ};
ghost use Rattle.daybook.specs.Books.{book_of};
ghost use Rattle.daybook.specs.Replays.{SameInputs, Replayed, Answered};

use crate::book::DayBook;
use crate::call::{BookAnswer, BookCall};
use allocation::rule::AllocationRule;
use events::fault::BookFault;

// The book after the calls, each in its turn, whether it is accepted or refused.
// What each call answers is written at its place in `answers`, as far as there are places.
pub fn replay<R: AllocationRule>(
    rule: R,
    calls: &[BookCall<'_>],
    answers: &mut [Result<BookAnswer, BookFault>],
) -> DayBook<R>
    ensures rule { result.rule ≡ rule }
    ensures answers { Answered (R.AllocationRule.shares rule) calls.now answers.old answers.new }
    ensures replayed { Replayed (R.AllocationRule.shares rule) calls.now (book_of result.ledger) }
{
    let mut book = DayBook::open(rule);
    for (place, call) in calls.iter().enumerate() {
        let answer = book.apply(*call);
        // By index, since through `get_mut` it is not known what the list holds after the write.
        if place < answers.len() {
            answers[place] = answer;
        }
    }
    book
}

// The books after two lists of calls under one rule: where their inputs and settled hours agree, so do all lines.
pub fn replay_both<R: AllocationRule + Copy>(
    rule: R,
    first: &[BookCall<'_>],
    second: &[BookCall<'_>],
) -> (DayBook<R>, DayBook<R>)
    ensures first { Replayed (R.AllocationRule.shares rule) first.now (book_of result.0.ledger) }
    ensures second { Replayed (R.AllocationRule.shares rule) second.now (book_of result.1.ledger) }
    ensures agree { SameInputs (book_of result.0.ledger).state.inputs (book_of result.1.ledger).state.inputs → (book_of result.0.ledger).state.settled ≡ (book_of result.1.ledger).state.settled → (h m : ℕ) → (book_of result.0.ledger).lines h m ≡ (book_of result.1.ledger).lines h m }
{
    (replay(rule, first, &mut []), replay(rule, second, &mut []))
}
