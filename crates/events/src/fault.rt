// Why the day book refuses a call.
ghost use Rattle.std.specs.Prelude.{◌≡◌, Some, decimal};
ghost use Rattle.events.specs.Faults.{number};

use std::fmt;

// Each has the number by which it is known outside.
#[derive(Clone, Copy, PartialEq, Eq, Debug)]
pub enum BookFault {
    // A code that is not 1 to 6 capital letters or digits.
    BadCode = 1,
    // A code that stands on the roll already.
    CodeTaken = 2,
    RollFull = 3,
    NoSuchMember = 4,
    NoSuchResource = 5,
    // An hour outside 1 to 24.
    BadHour = 6,
    // A quantity of energy above its bound.
    TooMuchEnergy = 7,
    // A price, sum of prices or cost above its bound.
    TooMuchMoney = 8,
    // One member on both sides of a trade.
    SameMember = 9,
    TradesFull = 10,
    EventRuns = 11,
    NoEventRuns = 12,
    // A minute at which an event cannot start or end.
    BadMinute = 13,
    EventsFull = 14,
    // A sample of the other kind of resource, no number, or out of range.
    BadSample = 15,
    // Reserve with no load to carry it, or refunds with no member to pay them to.
    NobodyToCharge = 16,
}

impl BookFault {
    // Its number. The refusals of a rule have theirs: no crate stands below both.
    pub fn number(self) -> u8
        ensures { result ≡ number self }
    {
        // No conversion but `as` takes a variant to its number.
        self as u8
    }
}

impl fmt::Display for BookFault {
    ghost output = { λ fault. Some (decimal (number fault)) };

    fn fmt<W: fmt::Write>(&self, f: &mut fmt::Formatter<W>) -> fmt::Result {
        write!(f, "{}", self.number())
    }
}
