// Plays the story of one hour and prints it: settled, cleared by a late trade and settled again,
// and once more with the trade the other way round. Then the same inputs are entered in another order.
#![tactic(auto)]

mod story;

use allocation::cumulative::CumulativeRounding;
use daybook::book::DayBook;
use daybook::call::{BookAnswer, BookCall};
use daybook::replay::{replay, replay_both};
use events::fault::BookFault;
use inputs::call::Answer;
use settlement::line::Line;
use std::{fmt, io};
use story::{EXCHANGED, HOUR, MEMBERS, SETTLED, TRADED, calls_in_another_order, story_calls};

type Book = DayBook<CumulativeRounding>;

// What a call answered.
#[derive(Drop)]
struct Response<'a>(&'a Result<BookAnswer, BookFault>);

impl fmt::Display for Response<'_> {
    fn fmt<W: fmt::Write>(&self, f: &mut fmt::Formatter<W>) -> fmt::Result {
        match self.0 {
            Ok(BookAnswer::Entered(Answer::Place(place))) => write!(f, "place {place}"),
            Ok(BookAnswer::Entered(Answer::Cleared(hours))) => {
                write!(f, "settled hours cleared: {hours}")
            }
            Ok(BookAnswer::Settled { total }) => write!(f, "settled, {total} cents"),
            Err(fault) => write!(f, "refused {fault}"),
        }
    }
}

// The lines of the members; a member that is not enrolled has none.
fn lines_of(book: &Book) -> Result<[Line; 3], BookFault> {
    MEMBERS.try_map(|code| book.line(HOUR, code.as_bytes()))
}

// One sentence of many values, of which no type is made for this program alone; so are those below.
fn print_line(rt: &impl Print, code: &str, line: &Line) -> io::Result<()> {
    println!(rt;
        "  {code}: obligation {}, adjusted {}, charged {} and {}, credited {} and {}",
        line.obligation,
        line.adjusted_obligation,
        line.clearing_charge,
        line.opportunity_cost_charge,
        line.clearing_credit,
        line.opportunity_cost_credit
    )
}

// What the credits of the lines come to less the charges.
fn balance<F: Fn(&Line) -> (i64, i64)>(lines: &[Line], credit_and_charge: F) -> i64
    requires { F.IsAlwaysCallable credit_and_charge }
{
    // A loop: in a fold over `map` it is left open that the closure may be called.
    let mut sum = 0i64;
    for line in lines {
        let (credit, charge) = credit_and_charge(line);
        sum = sum.saturating_add(credit).saturating_sub(charge);
    }
    sum
}

fn print_balance(rt: &impl Print, lines: &[Line]) -> io::Result<()> {
    let clearing = balance(lines, |line| (line.clearing_credit, line.clearing_charge));
    let costs = balance(
        lines,
        |line| (line.opportunity_cost_credit, line.opportunity_cost_charge),
    );
    let refunds = balance(lines, |line| (line.refund_paid, line.refund_charged));
    println!(rt;
        "  credits less charges: clearing {clearing}, lost opportunity cost {costs}, refunds {refunds}"
    )
}

// Prints the lines of the hour with their balance.
fn print_lines(rt: &impl Print, book: &Book) -> io::Result<()> {
    let Ok(lines) = lines_of(book) else {
        return println!(rt; "  no lines");
    };
    for (code, line) in MEMBERS.iter().zip(&lines) {
        print_line(rt, code, line)?;
    }
    print_balance(rt, &lines)
}

// Plays the calls, and prints what each after the first so many answered and the lines of the hour.
fn play(rt: &impl Print, calls: &[BookCall<'_>], skip: usize) -> io::Result<()> {
    // What stands in the places does not matter: each is written over by the answer to its call.
    let mut responses = [Err(BookFault::BadHour); EXCHANGED];
    let book = replay(CumulativeRounding, calls, &mut responses);
    for (number, response) in (1..=calls.len()).zip(&responses).skip(skip) {
        println!(rt; "{number}: {}", Response(response))?;
    }
    print_lines(rt, &book)
}

fn main(rt: HostRuntime) -> io::Result<()> {
    let calls = story_calls();
    play(&rt, &calls[..SETTLED], 0)?;
    play(&rt, &calls[..TRADED], SETTLED)?;
    play(&rt, &calls, TRADED)?;
    let (story, other) = replay_both(CumulativeRounding, &calls, &calls_in_another_order());
    match (lines_of(&story), lines_of(&other)) {
        (Ok(first), Ok(second)) if first == second => {
            println!(rt; "entered in another order: the same lines")
        }
        _ => println!(rt; "entered in another order: OTHER LINES"),
    }
}
