// The calls on the day's inputs.
use events::calls::EventCall;
use events::resource::ResourceKind;
use hours::assignment::Assignment;

// Members and resources are named by their codes, any bytes; figures are any number.
// Energy is in kWh, prices in cents per MWh, costs in cents.
#[derive(Clone, Copy)]
pub enum Call<'a> {
    Enrol {
        code: &'a [u8],
    },
    Register {
        code: &'a [u8],
        owner: &'a [u8],
        kind: ResourceKind,
        interval_price_sum: u64,
    },
    SetLoad {
        hour: u64,
        member: &'a [u8],
        kwh: u64,
    },
    SetPrices {
        hour: u64,
        synchronized: u64,
        non_synchronized: u64,
    },
    Assign {
        hour: u64,
        resource: &'a [u8],
        assignment: Assignment<u64>,
    },
    // A quantity of zero removes the trade.
    SetTrade {
        hour: u64,
        seller: &'a [u8],
        buyer: &'a [u8],
        kwh: u64,
    },
    Happen(EventCall<'a>),
}

// What an accepted call answers: the place of what it added, or how many settled hours it cleared.
#[derive(Clone, Copy, PartialEq, Eq, Debug)]
pub enum Answer {
    Place(usize),
    Cleared(usize),
}
