// Answers a line: the shares under each rule, or why there are none.
ghost use Rattle.std.specs.Prelude.{◌≡◌, length, Ok, Err, Some, IfOk, vec_len};
ghost use Rattle.allocate.specs.declared.answer.NoShares.TheVariants.{Refused};
ghost use Rattle.allocate.specs.Answers.{reply_of, reply_to, reply_to_request};
ghost use Rattle.allocate.specs.Texts.{list_text, reply_text};

use crate::request::numbers;
use allocation::cumulative::CumulativeRounding;
use allocation::refusal::AllocationRefusal;
use allocation::remainder::LargestRemainder;
use allocation::rule::{allocate_by, examine};
use std::alloc::{AllocError, Global};
use std::fmt;

const NOT_A_REQUEST: &str =
    "not a request: write an amount and its weights as whole numbers, separated by commas";

// The shares of an amount under each rule; each rule writes a slice of its own.
#[derive(Drop)]
pub(crate) struct Shares {
    by_cumulative: Vec<i64>,
    by_remainder: Vec<i64>,
}

// Why a line has no shares.
#[derive(Clone, Copy)]
pub(crate) enum NoShares {
    Refused(AllocationRefusal),
    NotARequest,
}

// What a line is answered. Running out of memory is no answer: it ends the run.
pub(crate) type Answer = Result<Shares, NoShares>;

impl From<AllocationRefusal> for NoShares {
    ghost from_gives = { λ refusal reason. reason ≡ Refused refusal };

    fn from(refusal: AllocationRefusal) -> NoShares {
        NoShares::Refused(refusal)
    }
}

impl Shares {
    // A place for each share, with a zero in it.
    fn zeros(heap: Global, count: usize) -> Result<Shares, AllocError>
        ensures by_cumulative { IfOk result (λ s. vec_len s.by_cumulative ≡ count) }
        ensures by_remainder { IfOk result (λ s. vec_len s.by_remainder ≡ count) }
    {
        Ok(Shares {
            by_cumulative: vec![in heap; 0i64; count]?,
            by_remainder: vec![in heap; 0i64; count]?,
        })
    }
}

// The shares of the amount, written to their places.
fn allocate_both(amount: i64, weights: &[i64], mut places: Shares) -> Answer
    requires by_cumulative { vec_len places.by_cumulative ≡ length weights.now }
    requires by_remainder { vec_len places.by_remainder ≡ length weights.now }
    ensures { reply_of result ≡ reply_to_request amount weights.now }
{
    allocate_by(
        &CumulativeRounding,
        amount,
        weights,
        &mut places.by_cumulative,
    )?;
    allocate_by(&LargestRemainder, amount, weights, &mut places.by_remainder)?;
    Ok(places)
}

// The answer to a line without its line feed.
pub(crate) fn answer_to(heap: Global, line: &[u8]) -> Result<Answer, AllocError>
    ensures { IfOk result (λ a. reply_of a ≡ reply_to line.now) }
{
    let request = numbers(heap, line)?;
    // A line that is no request has an answer: by `?` it would be an error of the run.
    let Some([amount, weights @ ..]) = request.as_deref() else {
        return Ok(Err(NoShares::NotARequest));
    };
    // A refused line gets no places: a long one would need as many as it has weights.
    if let Err(refusal) = examine(*amount, weights, weights.len()) {
        return Ok(Err(NoShares::Refused(refusal)));
    }
    let places = Shares::zeros(heap, weights.len())?;
    Ok(allocate_both(*amount, weights, places))
}

// Numbers separated by commas. The library's `join` joins texts alone.
#[derive(Clone, Copy)]
struct Listed<'a>(&'a [i64]);

impl fmt::Display for Listed<'_> {
    ghost output = { λ l. Some (list_text l.0.now) };

    fn fmt<W: fmt::Write>(&self, f: &mut fmt::Formatter<W>) -> fmt::Result {
        let Some((first, others)) = self.0.split_first() else {
            return Ok(());
        };
        write!(f, "{first}")?;
        for value in others {
            write!(f, ",{value}")?;
        }
        Ok(())
    }
}

impl fmt::Display for Shares {
    ghost output = { λ s. Some (reply_text (reply_of (Ok s))) };

    fn fmt<W: fmt::Write>(&self, f: &mut fmt::Formatter<W>) -> fmt::Result {
        let first = Listed(&self.by_cumulative);
        let second = Listed(&self.by_remainder);
        write!(f, "cumulative {first} remainder {second}")
    }
}

impl fmt::Display for NoShares {
    ghost output = { λ e. Some (reply_text (reply_of (Err e))) };

    fn fmt<W: fmt::Write>(&self, f: &mut fmt::Formatter<W>) -> fmt::Result {
        match self {
            NoShares::Refused(refusal) => write!(f, "refused {refusal}"),
            NoShares::NotARequest => f.write_str(NOT_A_REQUEST),
        }
    }
}
