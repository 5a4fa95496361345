// The shortfalls of the day's events, each computed once.
ghost use Rattle.std.specs.Prelude.{◌≡◌, ℕ, ◌<◌, length};
ghost use Rattle.settlement.specs.Sums.{largest as largest_of};
ghost use Rattle.settlement.specs.Shortfalls.{shortfall as shortfall_in, over_response as over_response_in};
ghost use Rattle.settlement.specs.Settlement.{counted_here};
ghost use Rattle.settlement.specs.Figures.{the_day, ByResource, Modest};
ghost use Rattle.refunds.specs.Rows.{counted_shortfall, ShortfallsOf};

use crate::event::EventOfDay;
use crate::minutes::{is_counted, minutes_in};
use crate::raising::larger;
use crate::responses::ResourceInEvent;
use crate::rows::EventShortfalls;
use inputs::tables::Tables;
use rolls::hour::HourPlace;
use rolls::limits::{MAX_EVENTS, MAX_RESOURCES};
use settlement::figures::{by_place, by_resource};

// The shortfalls of all resources in all events that count.
fn counted_shortfalls(tables: &Tables) -> [[i64; MAX_RESOURCES]; MAX_EVENTS]
    ensures { ShortfallsOf (the_day tables.now) result }
{
    let count = tables.closed_events().len();
    by_place(
        count,
        [0; MAX_RESOURCES],
        |place|
            requires { place < length (the_day tables.now).closed }
            ensures { ByResource tables.entry.now result (counted_shortfall (the_day tables.entry.now) place) }
        {
            let event = EventOfDay::at(tables, place);
            if !is_counted(event.event) {
                return [0; MAX_RESOURCES];
            }
            event.shortfalls()
        },
    )
}

impl EventOfDay<'_> {
    // The shortfalls of all resources.
    fn shortfalls(&self) -> [i64; MAX_RESOURCES]
        ensures { ByResource self.now.tables.now result (shortfall_in (the_day self.now.tables.now) self.now.event.now) }
    {
        by_resource(self.tables, |resource| {
            let here = ResourceInEvent::at(self, resource);
            here.shortfall()
        })
    }

    // The over-responses of all resources.
    pub(crate) fn over_responses(&self) -> [i64; MAX_RESOURCES]
        ensures value { ByResource self.now.tables.now result (over_response_in (the_day self.now.tables.now) self.now.event.now) }
        ensures size { Modest (length (the_day self.now.tables.now).roll) result }
    {
        by_resource(self.tables, |resource| {
            let here = ResourceInEvent::at(self, resource);
            here.over_response()
        })
    }
}

impl<'a> EventShortfalls<'a> {
    // The shortfalls of all resources in all events that count.
    pub fn of(tables: &'a Tables) -> EventShortfalls<'a>
        ensures { result.tables.now ≡ tables.now }
    {
        EventShortfalls {
            tables,
            rows: counted_shortfalls(tables),
        }
    }

    // Rows that were taken of these or other tables, beside tables whose shortfalls they are.
    pub fn of_rows(
        tables: &'a Tables,
        rows: [[i64; MAX_RESOURCES]; MAX_EVENTS],
    ) -> EventShortfalls<'a>
        requires { ShortfallsOf (the_day tables.now) rows }
        ensures tables { result.tables.now ≡ tables.now }
        ensures rows { result.rows ≡ rows }
    {
        EventShortfalls { tables, rows }
    }

    // The rows, to be kept while the tables change.
    pub fn rows(&self) -> [[i64; MAX_RESOURCES]; MAX_EVENTS]
        ensures { result ≡ self.now.rows }
    {
        self.rows
    }

    // The largest shortfall of each resource in the events that count and have a minute in an hour.
    // The loop is written out, as for the retroactive ones: what is taken of an event has a contract of its own.
    pub fn largest_shortfalls(&self, hour: HourPlace) -> [i64; MAX_RESOURCES]
        ensures { ByResource self.now.tables.now result (λ r. largest_of (counted_here (the_day self.now.tables.now) hour.place) (λ e. shortfall_in (the_day self.now.tables.now) e r)) }
    {
        let mut largest = [0; MAX_RESOURCES];
        for (event, row) in self.tables.closed_events().iter().zip(&self.rows) {
            if minutes_in(event, hour.index()) > 0 {
                largest = larger(row, &largest);
            }
        }
        largest
    }
}
