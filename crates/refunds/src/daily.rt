// The refunds of the day.
ghost use Rattle.settlement.specs.Shortfalls.{day_refund};
ghost use Rattle.settlement.specs.Figures.{the_day, ByResource};

use crate::rows::EventShortfalls;
use allocation::rule::AllocationRule;
use rolls::limits::MAX_RESOURCES;
use settlement::figures::{by_resource, cents};

impl EventShortfalls<'_> {
    // The day refund of each resource in cents: its largest retroactive shortfall at its interval price sum.
    pub fn day_refunds<R: AllocationRule>(&self, rule: &R) -> [i64; MAX_RESOURCES]
        ensures { ByResource self.now.tables.now result (day_refund (R.AllocationRule.shares rule.now) (the_day self.now.tables.now)) }
    {
        let largest = self.largest_retroactive(rule);
        let resources = self.tables.resources();
        by_resource(self.tables, |place| {
            cents(largest[place], resources[place].interval_price_sum)
        })
    }
}
