// The parts of the day refunds that fall to an hour.
ghost use Rattle.std.specs.Prelude.{◌≡◌, ◌<◌, length, pos};
ghost use Rattle.settlement.specs.Shortfalls.{day_refund, refund_minutes as refund_minutes_of, refund_part as refund_part_of};
ghost use Rattle.settlement.specs.Figures.{the_day, ByResource};

use crate::minutes::minutes_in;
use crate::rows::EventShortfalls;
use allocation::rule::AllocationRule;
use rolls::hour::HourPlace;
use rolls::limits::{HOURS, MAX_RESOURCES};
use settlement::figures::{allocate_amount, by_place, by_resource};

impl EventShortfalls<'_> {
    // The minutes in an hour of the events in which a resource had a shortfall.
    // A loop and no chain: its invariant says that the sum fits, at most 60 minutes for each event so far.
    fn short_minutes(&self, resource: usize, hour: usize) -> u16
        requires resource { resource < length (the_day self.now.tables.now).roll }
        requires hour { hour < 24 }
        ensures { pos result ≡ refund_minutes_of (the_day self.now.tables.now) resource hour }
    {
        let mut minutes = 0;
        for (event, row) in self.tables.closed_events().iter().zip(&self.rows) {
            if row[resource] > 0 {
                minutes += minutes_in(event, hour);
            }
        }
        minutes
    }

    // The part of a resource's day refund that falls to an hour, in cents: it is allocated by the minutes over all hours.
    fn refund_part<R: AllocationRule>(
        &self,
        rule: &R,
        refund: i64,
        hour: HourPlace,
        resource: usize,
    ) -> i64
        requires refund { refund ≡ day_refund (R.AllocationRule.shares rule.now) (the_day self.now.tables.now) resource }
        requires resource { resource < length (the_day self.now.tables.now).roll }
        ensures { result ≡ refund_part_of (R.AllocationRule.shares rule.now) (the_day self.now.tables.now) hour.place resource }
    {
        let minutes: [i64; HOURS] = by_place(HOURS, 0, |place| {
            let minutes = self.short_minutes(resource, place);
            i64::from(minutes)
        });
        let mut parts = [0; HOURS];
        allocate_amount(rule, refund, &minutes, &mut parts);
        parts[hour.index()]
    }

    // The part of each resource's day refund that falls to an hour, in cents.
    pub fn refund_parts<R: AllocationRule>(
        &self,
        rule: &R,
        refunds: &[i64; MAX_RESOURCES],
        hour: HourPlace,
    ) -> [i64; MAX_RESOURCES]
        requires { ByResource self.now.tables.now refunds.now (day_refund (R.AllocationRule.shares rule.now) (the_day self.now.tables.now)) }
        ensures { ByResource self.now.tables.now result (refund_part_of (R.AllocationRule.shares rule.now) (the_day self.now.tables.now) hour.place) }
    {
        by_resource(self.tables, |place| {
            self.refund_part(rule, refunds[place], hour, place)
        })
    }
}
