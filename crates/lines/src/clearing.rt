// What the members are credited and charged for clearing and for lost opportunity costs in an hour.
ghost use Rattle.lines.specs.Steps.{CreditsOf, ObligationsOf, ClearingOf};

use crate::credits::Credits;
use crate::hour_of_day::HourOfDay;
use crate::obligations::Obligations;
use crate::sums::{or_else, shares_of};
use allocation::rule::AllocationRule;
use rolls::limits::MAX_MEMBERS;

// In cents, by the members' places, and the total of the credits.
// Columns, since a rule answers one of them at a time.
#[derive(Clone, Copy)]
pub(crate) struct Clearing {
    pub(crate) clearing_credits: [i64; MAX_MEMBERS],
    pub(crate) opportunity_cost_credits: [i64; MAX_MEMBERS],
    pub(crate) clearing_charges: [i64; MAX_MEMBERS],
    pub(crate) opportunity_cost_charges: [i64; MAX_MEMBERS],
    pub(crate) total: i64,
}

impl HourOfDay<'_> {
    // Clearing credits are charged by adjusted obligations, lost opportunity costs by purchases.
    pub(crate) fn clear<R: AllocationRule>(
        &self,
        rule: &R,
        owed: &Obligations,
        credits: &Credits,
    ) -> Clearing
        requires owed { ObligationsOf (R.AllocationRule.shares rule.now) self.now.tables.now self.now.hour.place owed.now }
        requires credits { CreditsOf self.now.tables.now self.now.hour.place credits.now }
        ensures { ClearingOf (R.AllocationRule.shares rule.now) self.now.tables.now self.now.hour.place result }
    {
        let count = self.member_count();
        let adjusted = &owed.adjusted[..count];
        let clearing = self.sum_by_resource(&credits.clearing);
        let costs = self.sum_by_resource(&credits.opportunity_costs);
        let purchases = self.less_own(&owed.adjusted, &credits.delivered);
        let buyers = or_else(&purchases[..count], adjusted);
        Clearing {
            clearing_credits: self.own_sums(&credits.clearing),
            opportunity_cost_credits: self.own_sums(&credits.opportunity_costs),
            clearing_charges: shares_of(rule, clearing, adjusted),
            opportunity_cost_charges: shares_of(rule, costs, buyers),
            total: clearing + costs,
        }
    }
}
