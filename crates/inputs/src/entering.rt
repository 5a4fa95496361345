// The calls that enter or correct the day's inputs.
ghost use Rattle.std.specs.Prelude.{◌≡◌, ◌<◌, ◌≤◌, true, false, length, IfSome, is_ok, IfOk, if◌then◌else◌, Ok, Err, nat_lt};
ghost use Rattle.std.specs.Result.{result_map_both};
ghost use Rattle.events.specs.declared.fault.BookFault.TheVariants.{TooMuchEnergy};
ghost use Rattle.events.specs.declared.calls.EventCall.TheVariants.{Begin, Read, Close, Cancel};
ghost use Rattle.events.specs.Outcomes.{Outcome};
ghost use Rattle.hours.specs.Assignments.{Small};
ghost use Rattle.inputs.specs.Inputs.{member_named};
ghost use Rattle.inputs.specs.States.{opened, state_of, hour_settled};
ghost use Rattle.inputs.specs.Calls.{hour_place, assignment_verdict, refusal, answer_of, after, Taken, OthersStay, QuantitySet};
ghost use Rattle.inputs.specs.declared.call.Call.TheVariants.{Enrol, Register, SetLoad, SetPrices, Assign, SetTrade, Happen};

use crate::call::{Answer, Call};
use crate::tables::Tables;
use events::calls::EventCall;
use events::event::{Edge, Events};
use events::fault::BookFault;
use events::resource::{Resource, ResourceKind};
use events::sample::Sample;
use hours::assignment::{Assignment, AssignmentTable};
use hours::hour::HourTable;
use hours::settled::SettledHours;
use rolls::code::{Code, NO_CODE};
use rolls::hour::HourPlace;
use rolls::limits::{
    MAX_ASSIGNED_KWH, MAX_COSTS, MAX_INTERVAL_PRICE_SUM, MAX_LOAD_KWH, MAX_OFFER, MAX_PRICE,
    MAX_TRADE_KWH,
};
use rolls::roll::Roll;
use trades::standing::Trades;
use trades::trade::TradeKey;

// The place of hour ending 1 to 24.
pub fn hour_place(hour: u64) -> Result<HourPlace, BookFault>
    ensures { result_map_both (λ p. p.place) (λ e. e) result ≡ hour_place hour }
{
    HourPlace::of(hour).ok_or(BookFault::BadHour)
}

// A figure that is not above its bound, or the refusal.
fn at_most(figure: u64, most: u64, fault: BookFault) -> Result<u32, BookFault>
    requires { most ≤ 4294967295 }
    ensures { result ≡ (if nat_lt most figure then Err fault else Ok figure) }
{
    if figure > most {
        return Err(fault);
    }
    // Every bound fits in `u32`, so the cast loses nothing; `try_from` would have an error to answer for.
    Ok(figure as u32)
}

// The assignment as it may stand, or which of its figures is too large.
fn within_bounds(assignment: Assignment<u64>) -> Result<Assignment<u32>, BookFault>
    ensures value { result ≡ assignment_verdict assignment }
    ensures small { IfOk result Small }
{
    match assignment {
        Assignment::Unassigned => Ok(Assignment::Unassigned),
        Assignment::TierOne { kwh } => Ok(Assignment::TierOne {
            kwh: at_most(kwh, MAX_ASSIGNED_KWH, BookFault::TooMuchEnergy)?,
        }),
        Assignment::SelfScheduled { kwh } => Ok(Assignment::SelfScheduled {
            kwh: at_most(kwh, MAX_ASSIGNED_KWH, BookFault::TooMuchEnergy)?,
        }),
        Assignment::PoolScheduled { kwh, offer, costs } => Ok(Assignment::PoolScheduled {
            kwh: at_most(kwh, MAX_ASSIGNED_KWH, BookFault::TooMuchEnergy)?,
            offer: at_most(offer, MAX_OFFER, BookFault::TooMuchMoney)?,
            costs: at_most(costs, MAX_COSTS, BookFault::TooMuchMoney)?,
        }),
    }
}

impl Tables {
    // The tables of a day on which nothing was entered.
    pub fn open() -> Tables
        ensures { state_of result ≡ opened }
    {
        let nothing = Resource {
            code: NO_CODE,
            owner: 0,
            kind: ResourceKind::Generator,
            interval_price_sum: 0,
        };
        Tables {
            members: Roll::empty(NO_CODE),
            resources: Roll::empty(nothing),
            hours: HourTable::blank(),
            assignments: AssignmentTable::blank(),
            trades: Trades::none(),
            events: Events::none(),
            settled: SettledHours::none(),
        }
    }

    // The place of the member that a code names, if one is enrolled.
    pub fn member_named(&self, text: &[u8]) -> Option<usize>
        ensures value { result ≡ member_named self.now.members text.now }
        ensures within { IfSome result (λ i. (i < length self.now.members) × (i < 16)) }
    {
        self.members.place_named(text)
    }

    // Marks the hour at a place as settled.
    pub fn mark_settled(&mut self, hour: HourPlace)
        ensures { state_of self.new ≡ hour_settled hour.place (state_of self.old) }
    {
        self.settled.settle(hour);
    }

    // Adds a member, and answers its place.
    pub fn enrol(&mut self, code: &[u8]) -> Result<usize, BookFault>
        ensures { Taken (state_of self.old) (Enrol code.entry) result (state_of self.new) }
    {
        let code = Code::new(code).ok_or(BookFault::BadCode)?;
        if self.members.place_of(&code).is_some() {
            return Err(BookFault::CodeTaken);
        }
        let place = self.members.push(code).ok_or(BookFault::RollFull)?;
        let _ = self.settled.clear_all();
        Ok(place)
    }

    // Adds a resource, and answers its place.
    pub fn register(
        &mut self,
        code: &[u8],
        owner: &[u8],
        kind: ResourceKind,
        interval_price_sum: u64,
    ) -> Result<usize, BookFault>
        ensures { Taken (state_of self.old) (Register code.entry owner.entry kind interval_price_sum) result (state_of self.new) }
    {
        let code = Code::new(code).ok_or(BookFault::BadCode)?;
        let owner = self.member_place(owner)?;
        let sum = at_most(
            interval_price_sum,
            MAX_INTERVAL_PRICE_SUM,
            BookFault::TooMuchMoney,
        )?;
        if self.resources.place_of(&code).is_some() {
            return Err(BookFault::CodeTaken);
        }
        let resource = Resource {
            code,
            owner,
            kind,
            interval_price_sum: sum,
        };
        let place = self.resources.push(resource).ok_or(BookFault::RollFull)?;
        let _ = self.settled.clear_all();
        Ok(place)
    }

    // Sets a member's load in an hour, and answers how many settled hours that cleared.
    pub fn set_load(&mut self, hour: u64, member: &[u8], kwh: u64) -> Result<usize, BookFault>
        ensures { Taken (state_of self.old) (SetLoad hour member.entry kwh) result (state_of self.new) }
    {
        let hour = hour_place(hour)?;
        let member = self.member_place(member)?;
        let kwh = at_most(kwh, MAX_LOAD_KWH, BookFault::TooMuchEnergy)?;
        self.hours.set_load(hour, member, kwh);
        Ok(self.settled.clear(hour))
    }

    // Sets both prices of an hour, and answers how many settled hours that cleared.
    pub fn set_prices(
        &mut self,
        hour: u64,
        synchronized: u64,
        non_synchronized: u64,
    ) -> Result<usize, BookFault>
        ensures { Taken (state_of self.old) (SetPrices hour synchronized non_synchronized) result (state_of self.new) }
    {
        let hour = hour_place(hour)?;
        let synchronized = at_most(synchronized, MAX_PRICE, BookFault::TooMuchMoney)?;
        let non_synchronized = at_most(non_synchronized, MAX_PRICE, BookFault::TooMuchMoney)?;
        self.hours.set_prices(hour, synchronized, non_synchronized);
        Ok(self.settled.clear(hour))
    }

    // Sets a resource's assignment in an hour, and answers how many settled hours that cleared.
    pub fn assign(
        &mut self,
        hour: u64,
        resource: &[u8],
        assignment: Assignment<u64>,
    ) -> Result<usize, BookFault>
        ensures { Taken (state_of self.old) (Assign hour resource.entry assignment) result (state_of self.new) }
    {
        let hour = hour_place(hour)?;
        let resource = self.resource_place(resource)?;
        let assignment = within_bounds(assignment)?;
        self.assignments.set(hour, resource, assignment);
        Ok(self.settled.clear_all())
    }

    // Sets the quantity of a trade, zero to remove it, and answers how many settled hours that cleared.
    pub fn set_trade(
        &mut self,
        hour: u64,
        seller: &[u8],
        buyer: &[u8],
        kwh: u64,
    ) -> Result<usize, BookFault>
        ensures outcome { Taken (state_of self.old) (SetTrade hour seller.entry buyer.entry kwh) result (state_of self.new) }
        ensures quantity { is_ok result ≡ true → QuantitySet (state_of self.old) hour seller.now buyer.now kwh (state_of self.new) }
    {
        let hour = hour_place(hour)?;
        let seller = self.member_place(seller)?;
        let buyer = self.member_place(buyer)?;
        if seller == buyer {
            return Err(BookFault::SameMember);
        }
        let kwh = at_most(kwh, MAX_TRADE_KWH, BookFault::TooMuchEnergy)?;
        let key = TradeKey {
            hour: hour.index(),
            seller,
            buyer,
        };
        self.trades
            .set(key, kwh)
            .map_err(|_| BookFault::TradesFull)?;
        Ok(self.settled.clear(hour))
    }

    // Takes a call on the day's events, and answers how many settled hours that cleared.
    pub fn happen(&mut self, call: EventCall<'_>) -> Result<usize, BookFault>
        ensures { Taken (state_of self.old) (Happen call.entry) result (state_of self.new) }
    {
        self.events.decide(&self.resources, call)?;
        match call {
            EventCall::Close { .. } => Ok(self.settled.clear_all()),
            _ => Ok(0),
        }
    }

    // Begins an event, with all readings silent.
    pub fn begin_event(&mut self, start: u64) -> Result<usize, BookFault>
        ensures { Taken (state_of self.old) (Happen (Begin start)) result (state_of self.new) }
    {
        self.happen(EventCall::Begin { start })
    }

    // Enters a reading of the running event. No other resource's readings move.
    pub fn read(&mut self, resource: &[u8], edge: Edge, sample: Sample) -> Result<usize, BookFault>
        ensures outcome { Taken (state_of self.old) (Happen (Read resource.entry edge sample)) result (state_of self.new) }
        ensures others { OthersStay (state_of self.old) resource.now (state_of self.new) }
    {
        self.happen(EventCall::Read {
            resource,
            edge,
            sample,
        })
    }

    // Closes the running event, and answers how many settled hours that cleared.
    pub fn close_event(&mut self, end: u64) -> Result<usize, BookFault>
        ensures { Taken (state_of self.old) (Happen (Close end)) result (state_of self.new) }
    {
        self.happen(EventCall::Close { end })
    }

    // Drops the running event.
    pub fn cancel_event(&mut self) -> Result<usize, BookFault>
        ensures { Taken (state_of self.old) (Happen Cancel) result (state_of self.new) }
    {
        self.happen(EventCall::Cancel)
    }

    // Takes any of the calls.
    pub fn apply(&mut self, call: Call<'_>) -> Result<Answer, BookFault>
        ensures outcome { Outcome (refusal (state_of self.old) call.entry) (answer_of (state_of self.old) call.entry) (state_of self.old) (after (state_of self.old) call.entry) result (state_of self.new) }
        ensures refused { is_ok result ≡ false → state_of self.new ≡ state_of self.old }
    {
        match call {
            Call::Enrol { code } => self.enrol(code).map(Answer::Place),
            Call::Register {
                code,
                owner,
                kind,
                interval_price_sum,
            } => self
                .register(code, owner, kind, interval_price_sum)
                .map(Answer::Place),
            Call::SetLoad { hour, member, kwh } => {
                self.set_load(hour, member, kwh).map(Answer::Cleared)
            }
            Call::SetPrices {
                hour,
                synchronized,
                non_synchronized,
            } => self
                .set_prices(hour, synchronized, non_synchronized)
                .map(Answer::Cleared),
            Call::Assign {
                hour,
                resource,
                assignment,
            } => self.assign(hour, resource, assignment).map(Answer::Cleared),
            Call::SetTrade {
                hour,
                seller,
                buyer,
                kwh,
            } => self
                .set_trade(hour, seller, buyer, kwh)
                .map(Answer::Cleared),
            Call::Happen(call) => self.happen(call).map(Answer::Cleared),
        }
    }
}
