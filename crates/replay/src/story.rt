// The story of one hour, as calls on the book.
use daybook::call::BookCall;
use events::resource::ResourceKind;
use hours::assignment::Assignment;
use inputs::call::Call;

pub(crate) const HOUR: u64 = 18;

pub(crate) const MEMBERS: [&str; 3] = ["AA", "BB", "CC"];

// After so many calls of the story the hour is settled, settled again with a late trade,
// and settled once more with the trade the other way round.
pub(crate) const SETTLED: usize = 10;

pub(crate) const TRADED: usize = 12;

pub(crate) const EXCHANGED: usize = 15;

const GENERATOR: BookCall<'static> = BookCall::Enter(Call::Register {
    code: b"G1",
    owner: b"AA",
    kind: ResourceKind::Generator,
    interval_price_sum: 0,
});

const ASSIGNMENT: BookCall<'static> = BookCall::Enter(Call::Assign {
    hour: HOUR,
    resource: b"G1",
    assignment: Assignment::PoolScheduled {
        kwh: 1000,
        offer: 250,
        costs: 900,
    },
});

const SETTLE: BookCall<'static> = BookCall::Settle { hour: HOUR };

fn enrol(code: &'static [u8]) -> BookCall<'static> {
    BookCall::Enter(Call::Enrol { code })
}

fn price(synchronized: u64) -> BookCall<'static> {
    BookCall::Enter(Call::SetPrices {
        hour: HOUR,
        synchronized,
        non_synchronized: 0,
    })
}

fn load(member: &'static [u8]) -> BookCall<'static> {
    BookCall::Enter(Call::SetLoad {
        hour: HOUR,
        member,
        kwh: 30_000,
    })
}

fn trade(seller: &'static [u8], buyer: &'static [u8], kwh: u64) -> BookCall<'static> {
    BookCall::Enter(Call::SetTrade {
        hour: HOUR,
        seller,
        buyer,
        kwh,
    })
}

// The calls of the story in their order.
pub(crate) fn story_calls() -> [BookCall<'static>; EXCHANGED] {
    [
        enrol(b"AA"),
        enrol(b"BB"),
        enrol(b"CC"),
        GENERATOR,
        price(1001),
        load(b"AA"),
        load(b"BB"),
        load(b"CC"),
        ASSIGNMENT,
        SETTLE,
        trade(b"CC", b"BB", 100),
        SETTLE,
        trade(b"CC", b"BB", 0),
        trade(b"BB", b"CC", 100),
        SETTLE,
    ]
}

// The same inputs in another order, with a price corrected, a call refused and an hour settled too early.
pub(crate) fn calls_in_another_order() -> [BookCall<'static>; 14] {
    [
        enrol(b"AA"),
        enrol(b"BB"),
        enrol(b"CC"),
        SETTLE,
        trade(b"BB", b"CC", 100),
        load(b"CC"),
        GENERATOR,
        price(1010),
        ASSIGNMENT,
        load(b"BB"),
        enrol(b"AA"),
        load(b"AA"),
        price(1001),
        SETTLE,
    ]
}
