// Why a rule does not allocate.
ghost use Rattle.std.specs.Prelude.{◌≡◌, Some, decimal};
ghost use Rattle.allocation.specs.Refusals.{number};

use std::fmt;

#[derive(Clone, Copy, PartialEq, Eq, Debug)]
pub enum AllocationRefusal {
    // No weights, too many of them, or another number of places than of weights.
    BadCount = 17,
    // A negative amount, or an amount or weights too large.
    OutOfRange = 18,
    // The weights add up to zero or less.
    NoWeight = 19,
}

impl AllocationRefusal {
    // The number by which the refusal is known outside. The book's refusals have theirs: no crate stands below both.
    pub fn number(self) -> u8
        ensures { result ≡ number self }
    {
        // No conversion but `as` takes a variant to its number.
        self as u8
    }
}

impl fmt::Display for AllocationRefusal {
    ghost output = { λ refusal. Some (decimal (number refusal)) };

    fn fmt<W: fmt::Write>(&self, f: &mut fmt::Formatter<W>) -> fmt::Result {
        write!(f, "{}", self.number())
    }
}
