// Enters a small day and prints what each call answered, and what then stands.
#![tactic(auto)]

use events::calls::EventCall;
use events::event::Edge;
use events::fault::BookFault;
use events::resource::ResourceKind;
use events::sample::Sample;
use hours::assignment::Assignment;
use inputs::call::{Answer, Call};
use inputs::tables::Tables;
use std::{fmt, io};

// Three members and a generator; the last calls are refused.
const CALLS: [Call<'static>; 13] = [
    Call::Enrol { code: b"AA" },
    Call::Enrol { code: b"BB" },
    Call::Enrol { code: b"CC" },
    Call::Register {
        code: b"G1",
        owner: b"AA",
        kind: ResourceKind::Generator,
        interval_price_sum: 0,
    },
    Call::SetPrices {
        hour: 18,
        synchronized: 1001,
        non_synchronized: 0,
    },
    Call::SetLoad {
        hour: 18,
        member: b"AA",
        kwh: 30_000,
    },
    Call::Assign {
        hour: 18,
        resource: b"G1",
        assignment: Assignment::PoolScheduled {
            kwh: 1000,
            offer: 250,
            costs: 900,
        },
    },
    Call::SetTrade {
        hour: 18,
        seller: b"CC",
        buyer: b"BB",
        kwh: 100,
    },
    Call::Happen(EventCall::Begin { start: 1077 }),
    Call::Happen(EventCall::Read {
        resource: b"G1",
        edge: Edge::Start,
        sample: Sample::Output(100.0),
    }),
    Call::Happen(EventCall::Close { end: 1087 }),
    Call::SetTrade {
        hour: 18,
        seller: b"BB",
        buyer: b"BB",
        kwh: 100,
    },
    Call::Enrol { code: b"aa" },
];

// An answer, or the number of the refusal.
#[derive(Drop)]
struct Response<T>(Result<T, BookFault>);

impl<T: fmt::Display> fmt::Display for Response<T> {
    fn fmt<W: fmt::Write>(&self, f: &mut fmt::Formatter<W>) -> fmt::Result {
        match &self.0 {
            Ok(answer) => write!(f, "{answer}"),
            Err(fault) => write!(f, "refused {fault}"),
        }
    }
}

// What an accepted call answers, in words.
#[derive(Drop)]
struct Accepted(Answer);

impl fmt::Display for Accepted {
    fn fmt<W: fmt::Write>(&self, f: &mut fmt::Formatter<W>) -> fmt::Result {
        match self.0 {
            Answer::Place(place) => write!(f, "place {place}"),
            Answer::Cleared(hours) => write!(f, "cleared {hours}"),
        }
    }
}

// A second trade and a reading of a second event, each by its own method.
fn correct(rt: &impl Print, day: &mut Tables) -> io::Result<()> {
    let trade = Response(day.set_trade(18, b"AA", b"BB", 50));
    let begin = Response(day.begin_event(1200));
    let reading = Response(day.read(b"G1", Edge::End, Sample::Output(100.5)));
    println!(rt; "trade {trade}, begin {begin}, reading {reading}")
}

// What the questions answer, refusals as their numbers: two sentences of many values, of which no type is made.
fn print_questions(rt: &impl Print, day: &Tables) -> io::Result<()> {
    println!(rt;
        "{} members, {} resources, {} trades, {} closed events",
        day.member_count(),
        day.resource_count(),
        day.trade_count(),
        day.closed_events().len()
    )?;
    let member = Response(day.member_place(b"BB"));
    let resource = Response(day.resource_place(b"G2"));
    println!(rt; "BB at {member}, G2 {resource}")
}

fn main(rt: HostRuntime) -> io::Result<()> {
    let mut day = Tables::open();
    for (number, call) in (1..).zip(&CALLS) {
        let response = Response(day.apply(*call).map(Accepted));
        println!(rt; "{number}: {response}")?;
    }
    correct(&rt, &mut day)?;
    print_questions(&rt, &day)
}
