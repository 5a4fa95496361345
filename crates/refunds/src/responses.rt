// What a resource did in an event.
ghost use Rattle.std.specs.Prelude.{◌≡◌, ◌<◌, ◌≤◌, length, pos, ◌≤ℤ◌, unsigned_abs};
ghost use Rattle.settlement.specs.Shortfalls.{rise as rise_of, response_of, response as response_in, held as held_in, shortfall as shortfall_in, over_response as over_response_in};
ghost use Rattle.settlement.specs.Figures.{the_day};

use crate::event::EventOfDay;
use events::event::Reading;
use events::resource::ResourceKind;
use settlement::figures::assigned_kwh;

// How far one reading is above the other, zero at least; zero if either is silent.
fn rise(low: Option<u32>, high: Option<u32>) -> u32
    ensures { pos result ≡ rise_of low high }
{
    match (low, high) {
        (Some(low), Some(high)) => high.saturating_sub(low),
        _ => 0,
    }
}

// A generator responds by raising its output, a demand resource by lowering its draw.
fn response_of(kind: ResourceKind, reading: Reading) -> u32
    ensures { pos result ≡ response_of kind reading }
{
    match kind {
        ResourceKind::Generator => rise(reading.start, reading.end),
        ResourceKind::Demand => rise(reading.end, reading.start),
    }
}

// A resource's part in an event.
#[derive(Clone, Copy)]
pub(crate) struct ResourceInEvent<'a> {
    event: EventOfDay<'a>,
    resource: usize,
    ghost registered: { resource < length (the_day event.tables.now).roll },
}

impl<'a> ResourceInEvent<'a> {
    // The resource at a place, in an event.
    pub(crate) fn at(event: &EventOfDay<'a>, resource: usize) -> ResourceInEvent<'a>
        requires { resource < length (the_day event.now.tables.now).roll }
        ensures event { result.event ≡ event.now }
        ensures resource { result.resource ≡ resource }
    {
        ResourceInEvent {
            event: *event,
            resource,
        }
    }

    // The response of the resource, in kWh.
    fn response(&self) -> u32
        ensures { pos result ≡ response_in (the_day self.now.event.tables.now) self.now.event.event.now self.now.resource }
    {
        let resource = self.event.tables.resources()[self.resource];
        response_of(resource.kind, self.event.event.readings[self.resource])
    }

    // The kWh assigned to it in the event's starting hour.
    fn held(&self) -> i64
        ensures value { result ≡ held_in (the_day self.now.event.tables.now) self.now.event.event.now self.now.resource }
        ensures low { pos 0 ≤ℤ result }
        ensures most { result ≤ℤ pos 500000 }
    {
        assigned_kwh(self.event.tables, self.event.starting_hour(), self.resource)
    }

    // What its response stays below its assignment by, zero at least.
    pub(crate) fn shortfall(&self) -> i64
        ensures { result ≡ shortfall_in (the_day self.now.event.tables.now) self.now.event.event.now self.now.resource }
    {
        let response = i64::from(self.response());
        (self.held() - response).max(0)
    }

    // What its response exceeds its assignment by, zero at least; zero if it has none.
    pub(crate) fn over_response(&self) -> i64
        ensures value { result ≡ over_response_in (the_day self.now.event.tables.now) self.now.event.event.now self.now.resource }
        ensures size { unsigned_abs result ≤ 4294967295 }
    {
        let held = self.held();
        if held == 0 {
            return 0;
        }
        let response = i64::from(self.response());
        (response - held).max(0)
    }
}
