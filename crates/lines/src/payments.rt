// What the members are charged and paid of the day refunds in an hour.
ghost use Rattle.std.specs.Prelude.{◌≡◌, ◌&&◌, pos, int_lt};
ghost use Rattle.settlement.specs.Sums.{all_zero};
ghost use Rattle.settlement.specs.Settlement.{delivered_tier_one};
ghost use Rattle.settlement.specs.Figures.{ByResource, the_day};
ghost use Rattle.lines.specs.Steps.{ObligationsOf, Paid};

use crate::hour_of_day::HourOfDay;
use crate::obligations::Obligations;
use crate::sums::{is_all_zero, or_else, shares_of};
use allocation::rule::AllocationRule;
use events::fault::BookFault;
use refunds::rows::EventShortfalls;
use rolls::limits::{MAX_MEMBERS, MAX_RESOURCES};

// In cents, by the members' places, and the total.
// Columns, since a rule answers one of them at a time.
#[derive(Clone, Copy)]
pub(crate) struct Payments {
    pub(crate) charged: [i64; MAX_MEMBERS],
    pub(crate) paid: [i64; MAX_MEMBERS],
    pub(crate) total: i64,
}

// Whether refunds fall due with no member to pay them to.
fn lacks_payee(total: i64, payees: &[i64]) -> bool
    ensures { result ≡ (int_lt (pos 0) total && all_zero payees.now) }
{
    total > 0 && is_all_zero(payees)
}

impl HourOfDay<'_> {
    // The refunds of the hour, unless there is no member to pay them to.
    pub(crate) fn pay_refunds<R: AllocationRule>(
        &self,
        rule: &R,
        shortfalls: &EventShortfalls<'_>,
        owed: &Obligations,
        tier_one: &[i64; MAX_RESOURCES],
    ) -> Result<Payments, BookFault>
        requires same { shortfalls.now.tables.now ≡ self.now.tables.now }
        requires owed { ObligationsOf (R.AllocationRule.shares rule.now) self.now.tables.now self.now.hour.place owed.now }
        requires tier_one { ByResource self.now.tables.now tier_one.now (delivered_tier_one (the_day self.now.tables.now) self.now.hour.place) }
        ensures { Paid (R.AllocationRule.shares rule.now) self.now.tables.now self.now.hour.place result }
    {
        let count = self.member_count();
        let refunds = shortfalls.day_refunds(rule);
        let parts = shortfalls.refund_parts(rule, &refunds, self.hour);
        let total = self.sum_by_resource(&parts);
        let remaining = self.less_own(&owed.adjusted, tier_one);
        let weights = self.without_refunding(&remaining, &refunds);
        let payees = or_else(&weights[..count], &owed.owed[..count]);
        if lacks_payee(total, payees) {
            return Err(BookFault::NobodyToCharge);
        }
        let charged = self.own_sums(&parts);
        let paid = shares_of(rule, total, payees);
        Ok(Payments {
            charged,
            paid,
            total,
        })
    }
}
