// The calls on the day book.
use inputs::call::{Answer, Call};

// An entry or correction of the inputs, or the settlement of hour ending 1 to 24.
#[derive(Clone, Copy)]
pub enum BookCall<'a> {
    Enter(Call<'a>),
    Settle { hour: u64 },
}

// A settlement answers the total of clearing credits, opportunity cost credits and refunds paid, in cents.
#[derive(Clone, Copy, PartialEq, Eq, Debug)]
pub enum BookAnswer {
    Entered(Answer),
    Settled { total: i64 },
}
