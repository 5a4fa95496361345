// Retroactive shortfalls: what an owner's other resources did not make up for.
ghost use Rattle.std.specs.Prelude.{◌≡◌};
ghost use Rattle.settlement.specs.Shortfalls.{shortfall as shortfall_in, retroactive_shortfall as retroactive_in, largest_shortfall};
ghost use Rattle.settlement.specs.Figures.{the_day, ByResource};

use crate::event::EventOfDay;
use crate::minutes::is_counted;
use crate::owners::allocate_net;
use crate::raising::larger;
use crate::rows::EventShortfalls;
use allocation::rule::AllocationRule;
use rolls::limits::MAX_RESOURCES;
use settlement::owner::Owner;

impl EventOfDay<'_> {
    // The retroactive shortfalls of all resources, of which the shortfalls are given.
    fn retroactive_shortfalls<R: AllocationRule>(
        &self,
        rule: &R,
        shortfalls: &[i64; MAX_RESOURCES],
    ) -> [i64; MAX_RESOURCES]
        requires { ByResource self.now.tables.now shortfalls.now (shortfall_in (the_day self.now.tables.now) self.now.event.now) }
        ensures { ByResource self.now.tables.now result (λ r. retroactive_in (R.AllocationRule.shares rule.now) (the_day self.now.tables.now) r self.now.event.now) }
    {
        let over_responses = self.over_responses();
        let mut retroactive = [0; MAX_RESOURCES];
        for member in 0..self.tables.member_count() {
            let owner = Owner {
                tables: self.tables,
                member,
            };
            allocate_net(rule, &owner, shortfalls, &over_responses, &mut retroactive);
        }
        retroactive
    }
}

impl EventShortfalls<'_> {
    // The largest retroactive shortfall of each resource in the events that count.
    // The loop is written out, as for the largest shortfalls: what is taken of an event has a contract of its own.
    pub(crate) fn largest_retroactive<R: AllocationRule>(&self, rule: &R) -> [i64; MAX_RESOURCES]
        ensures { ByResource self.now.tables.now result (largest_shortfall (R.AllocationRule.shares rule.now) (the_day self.now.tables.now)) }
    {
        let mut largest = [0; MAX_RESOURCES];
        for (event, row) in self.tables.closed_events().iter().zip(&self.rows) {
            if is_counted(event) {
                let event = EventOfDay {
                    tables: self.tables,
                    event,
                };
                largest = larger(&event.retroactive_shortfalls(rule, row), &largest);
            }
        }
        largest
    }
}
