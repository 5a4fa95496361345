// The questions about the day's inputs, which change nothing.
ghost use Rattle.std.specs.Prelude.{◌≡◌, ◌<◌, ◌≤◌, length, IfOk};
ghost use Rattle.std.specs.List.{slice_get};
ghost use Rattle.events.specs.declared.fault.BookFault.TheVariants.{NoSuchMember, NoSuchResource};
ghost use Rattle.hours.specs.Hours.{hour_at};
ghost use Rattle.hours.specs.Assignments.{assignment_at};
ghost use Rattle.trades.specs.Trades.{standing};
ghost use Rattle.inputs.specs.States.{state_of};
ghost use Rattle.inputs.specs.Calls.{member, resource};
ghost use Rattle.inputs.specs.Asking.{found_or, OnlyOne, prices_of, load_of, assignment_of, quantity_of, is_settled};

use crate::entering::hour_place;
use crate::tables::Tables;
use events::event::{Event, RunningEvent};
use events::fault::BookFault;
use events::resource::Resource;
use hours::assignment::Assignment;
use hours::hour::Hour;
use rolls::code::Code;
use rolls::hour::HourPlace;
use trades::trade::{Trade, TradeKey};

impl Tables {
    // How many members are enrolled.
    pub fn member_count(&self) -> usize
        ensures { result ≡ length (state_of self.now).inputs.members }
    {
        self.members.len()
    }

    // How many resources are registered.
    pub fn resource_count(&self) -> usize
        ensures { result ≡ length (state_of self.now).inputs.resources }
    {
        self.resources.len()
    }

    // The place of the member that a code names; who is not found is refused here, for every call that names one.
    // Its twin of resources has a refusal of its own.
    pub fn member_place(&self, code: &[u8]) -> Result<usize, BookFault>
        ensures value { result ≡ found_or (member (state_of self.now) code.now) NoSuchMember }
        ensures only { OnlyOne (λ m. m) (state_of self.now).inputs.members code.now result }
        ensures within { IfOk result (λ i. (i < length (state_of self.now).inputs.members) × (i < 16)) }
    {
        let Some(place) = self.member_named(code) else {
            return Err(BookFault::NoSuchMember);
        };
        Ok(place)
    }

    // The place of the resource that a code names; what is not found is refused here, for every call that names one.
    pub fn resource_place(&self, code: &[u8]) -> Result<usize, BookFault>
        ensures value { result ≡ found_or (resource (state_of self.now) code.now) NoSuchResource }
        ensures only { OnlyOne (λ x. x.code) (state_of self.now).inputs.resources code.now result }
        ensures within { IfOk result (λ i. (i < length (state_of self.now).inputs.resources) × (i < 16)) }
    {
        let Some(place) = self.resources.place_named(code) else {
            return Err(BookFault::NoSuchResource);
        };
        Ok(place)
    }

    // The code of the member at a place. Its twin of resources has a refusal of its own.
    pub fn member_at(&self, place: usize) -> Result<Code, BookFault>
        ensures { result ≡ found_or (slice_get (state_of self.now).inputs.members place) NoSuchMember }
    {
        self.members.get(place).ok_or(BookFault::NoSuchMember)
    }

    // The resource at a place: its code, owner, kind and interval price sum.
    pub fn resource_at(&self, place: usize) -> Result<Resource, BookFault>
        ensures { result ≡ found_or (slice_get (state_of self.now).inputs.resources place) NoSuchResource }
    {
        self.resources.get(place).ok_or(BookFault::NoSuchResource)
    }

    // The synchronized and the non-synchronized price of an hour.
    pub fn prices(&self, hour: u64) -> Result<(u32, u32), BookFault>
        ensures { result ≡ prices_of (state_of self.now) hour }
    {
        let hour = self.hours.at(hour_place(hour)?);
        Ok((hour.synchronized_price, hour.non_synchronized_price))
    }

    // A member's load in an hour.
    pub fn load(&self, hour: u64, member: &[u8]) -> Result<u32, BookFault>
        ensures { result ≡ load_of (state_of self.now) hour member.now }
    {
        let hour = hour_place(hour)?;
        let member = self.member_place(member)?;
        Ok(self.hours.load(hour, member))
    }

    // A resource's assignment in an hour.
    pub fn assignment(&self, hour: u64, resource: &[u8]) -> Result<Assignment<u32>, BookFault>
        ensures { result ≡ assignment_of (state_of self.now) hour resource.now }
    {
        let hour = hour_place(hour)?;
        let resource = self.resource_place(resource)?;
        Ok(self.assignments.at(hour, resource))
    }

    // The quantity of a trade, 0 where none stands.
    pub fn trade(&self, hour: u64, seller: &[u8], buyer: &[u8]) -> Result<u32, BookFault>
        ensures { result ≡ quantity_of (state_of self.now) hour seller.now buyer.now }
    {
        let hour = hour_place(hour)?;
        let seller = self.member_place(seller)?;
        let buyer = self.member_place(buyer)?;
        Ok(
            self.trades.quantity(TradeKey {
                hour: hour.index(),
                seller,
                buyer,
            }),
        )
    }

    // How many trades stand: the keys with a quantity above zero.
    pub fn trade_count(&self) -> usize
        ensures { result ≡ standing (state_of self.now).inputs.traded }
    {
        self.trades.count()
    }

    // The closed events in order.
    pub fn closed_events(&self) -> &[Event]
        ensures { result.now ≡ (state_of self.now).inputs.events }
    {
        self.events.closed()
    }

    // The running event, if one runs.
    pub fn running_event(&self) -> Option<RunningEvent>
        ensures { result ≡ (state_of self.now).running }
    {
        self.events.running()
    }

    // Whether an hour is settled.
    pub fn is_settled(&self, hour: u64) -> Result<bool, BookFault>
        ensures { result ≡ is_settled (state_of self.now) hour }
    {
        Ok(self.settled.is_settled(hour_place(hour)?))
    }

    // The resources in order of registration.
    pub fn resources(&self) -> &[Resource]
        ensures value { result.now ≡ (state_of self.now).inputs.resources }
        ensures few { length result.now ≤ 16 }
    {
        self.resources.as_slice()
    }

    // The standing trades; their order has no meaning.
    pub fn standing_trades(&self) -> &[Trade]
        ensures value { result.now ≡ self.now.trades.places }
        ensures few { length result.now ≤ 64 }
    {
        self.trades.as_slice()
    }

    // The hour at a place.
    pub fn hour_at(&self, hour: HourPlace) -> Hour
        ensures { result ≡ hour_at (state_of self.now).inputs.hours hour.place }
    {
        self.hours.at(hour)
    }

    // The assignment of the resource at a place in an hour.
    pub fn assignment_at(&self, hour: HourPlace, resource: usize) -> Assignment<u32>
        requires { resource < 16 }
        ensures { result ≡ assignment_at (state_of self.now).inputs.assignments hour.place resource }
    {
        self.assignments.at(hour, resource)
    }
}
