// What can be done with the book's tables, under whatever rule.
ghost use Rattle.std.specs.Prelude.{◌≡◌};
ghost use Rattle.events.specs.Outcomes.{Outcome};
ghost use Rattle.inputs.specs.Calls.{refusal, answer_of};
ghost use Rattle.settlement.specs.Settlement.{line_at};
ghost use Rattle.daybook.specs.Books.{book_of, opened_book, entered, recorded, line_of};

use crate::ledger::Ledger;
use crate::table::LineTable;
use events::fault::BookFault;
use inputs::call::{Answer, Call};
use inputs::entering::hour_place;
use inputs::tables::Tables;
use rolls::hour::HourPlace;
use rolls::limits::MAX_MEMBERS;
use settlement::line::Line;

impl Ledger {
    // Nothing entered and no hour settled.
    pub(crate) fn open() -> Ledger
        ensures { book_of result ≡ opened_book }
    {
        Ledger {
            inputs: Tables::open(),
            lines: LineTable::blank(),
        }
    }

    // Enters or corrects an input.
    pub(crate) fn enter(&mut self, call: Call<'_>) -> Result<Answer, BookFault>
        ensures { Outcome (refusal (book_of self.old).state call.entry) (answer_of (book_of self.old).state call.entry) (book_of self.old) (entered (book_of self.old) call.entry) result (book_of self.new) }
    {
        self.inputs.apply(call)
    }

    // Records the lines of an hour, which is settled by that.
    pub(crate) fn record(&mut self, hour: HourPlace, lines: [Line; MAX_MEMBERS])
        ensures { book_of self.new ≡ recorded (book_of self.old) hour.place (line_at lines) }
    {
        self.lines.set(hour, lines);
        self.inputs.mark_settled(hour);
    }

    // A member's line in an hour, zero if the hour is not settled.
    pub(crate) fn line(&self, hour: u64, member: &[u8]) -> Result<Line, BookFault>
        ensures { result ≡ line_of (book_of self.now) hour member.now }
    {
        let place = hour_place(hour)?;
        let member = self.inputs.member_place(member)?;
        if self.inputs.is_settled(hour)? {
            Ok(self.lines.at(place, member))
        } else {
            Ok(Line::ZERO)
        }
    }
}
