// The day book: it holds the rule by value and its own tables beside it.
ghost use Rattle.std.specs.Prelude.{◌≡◌, ◌-◌};
ghost use Rattle.events.specs.Outcomes.{Outcome};
ghost use Rattle.inputs.specs.States.{state_of};
ghost use Rattle.inputs.specs.Calls.{answer_of};
ghost use Rattle.inputs.specs.Asking.{is_settled};
ghost use Rattle.settlement.specs.Settlement.{defined_total};
ghost use Rattle.daybook.specs.declared.call.BookCall.TheVariants.{Enter, Settle};
ghost use Rattle.daybook.specs.Books.{book_of, opened_book, book_refusal, book_answer, book_after, line_of};

use crate::call::{BookAnswer, BookCall};
use crate::ledger::Ledger;
use allocation::rule::AllocationRule;
use events::fault::BookFault;
use inputs::call::{Answer, Call};
use inputs::entering::hour_place;
use inputs::tables::Tables;
use lines::hour::settle_hour;
use settlement::line::Line;

#[derive(Drop)]
pub struct DayBook<R> {
    rule: R,
    ledger: Ledger,
}

impl<R: AllocationRule> DayBook<R> {
    // A book under this rule, with nothing entered.
    pub fn open(rule: R) -> DayBook<R>
        ensures rule { result.rule ≡ rule }
        ensures book { book_of result.ledger ≡ opened_book }
    {
        DayBook {
            rule,
            ledger: Ledger::open(),
        }
    }

    // The inputs, of which every question is asked.
    pub fn inputs(&self) -> &Tables
        ensures { state_of result.now ≡ (book_of self.now.ledger).state }
    {
        &self.ledger.inputs
    }

    // Enters or corrects an input, and answers its place or how many settled hours that cleared.
    pub fn enter(&mut self, call: Call<'_>) -> Result<Answer, BookFault>
        ensures rule { self.new.rule ≡ self.old.rule }
        ensures outcome { Outcome (book_refusal (R.AllocationRule.shares self.old.rule) (book_of self.old.ledger) (Enter call.entry)) (answer_of (book_of self.old.ledger).state call.entry) (book_of self.old.ledger) (book_after (R.AllocationRule.shares self.old.rule) (book_of self.old.ledger) (Enter call.entry)) result (book_of self.new.ledger) }
    {
        self.ledger.enter(call)
    }

    // Settles hour ending 1 to 24 by the book's rule, and answers the total of its credits and refunds paid.
    pub fn settle(&mut self, hour: u64) -> Result<i64, BookFault>
        ensures rule { self.new.rule ≡ self.old.rule }
        ensures outcome { Outcome (book_refusal (R.AllocationRule.shares self.old.rule) (book_of self.old.ledger) (Settle hour)) (defined_total (R.AllocationRule.shares self.old.rule) (book_of self.old.ledger).state.inputs (hour - 1)) (book_of self.old.ledger) (book_after (R.AllocationRule.shares self.old.rule) (book_of self.old.ledger) (Settle hour)) result (book_of self.new.ledger) }
    {
        let place = hour_place(hour)?;
        if self.ledger.inputs.running_event().is_some() {
            return Err(BookFault::EventRuns);
        }
        let settled = settle_hour(&self.rule, &self.ledger.inputs, place)?;
        self.ledger.record(place, settled.lines);
        Ok(settled.total)
    }

    // Takes any of the calls.
    pub fn apply(&mut self, call: BookCall<'_>) -> Result<BookAnswer, BookFault>
        ensures rule { self.new.rule ≡ self.old.rule }
        ensures outcome { Outcome (book_refusal (R.AllocationRule.shares self.old.rule) (book_of self.old.ledger) call.entry) (book_answer (R.AllocationRule.shares self.old.rule) (book_of self.old.ledger) call.entry) (book_of self.old.ledger) (book_after (R.AllocationRule.shares self.old.rule) (book_of self.old.ledger) call.entry) result (book_of self.new.ledger) }
    {
        match call {
            BookCall::Enter(call) => Ok(BookAnswer::Entered(self.enter(call)?)),
            BookCall::Settle { hour } => Ok(BookAnswer::Settled {
                total: self.settle(hour)?,
            }),
        }
    }

    // A member's line in an hour, zero if the hour is not settled.
    pub fn line(&self, hour: u64, member: &[u8]) -> Result<Line, BookFault>
        ensures { result ≡ line_of (book_of self.now.ledger) hour member.now }
    {
        self.ledger.line(hour, member)
    }

    // Whether an hour is settled.
    pub fn is_settled(&self, hour: u64) -> Result<bool, BookFault>
        ensures { result ≡ is_settled (book_of self.now.ledger).state hour }
    {
        self.ledger.inputs.is_settled(hour)
    }
}
