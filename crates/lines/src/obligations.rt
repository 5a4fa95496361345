// What the members have to carry in an hour.
ghost use Rattle.std.specs.Prelude.{◌≡◌, ◌&&◌, pos, int_lt};
ghost use Rattle.settlement.specs.Sums.{is_zero};
ghost use Rattle.settlement.specs.Settlement.{total_assigned};
ghost use Rattle.settlement.specs.Figures.{the_day};
ghost use Rattle.lines.specs.Steps.{Carried};

use crate::hour_of_day::HourOfDay;
use crate::sums::shares_of;
use allocation::rule::{AllocationRule, total_of};
use events::fault::BookFault;
use rolls::limits::MAX_MEMBERS;

// In kWh, by the members' places: the reserve by loads, and the same with sales less purchases.
// Columns, since a rule takes one of them as weights.
#[derive(Clone, Copy)]
pub(crate) struct Obligations {
    pub(crate) owed: [i64; MAX_MEMBERS],
    pub(crate) adjusted: [i64; MAX_MEMBERS],
}

// Whether reserve is assigned with no load to carry it.
fn lacks_load(reserve: i64, load: i64) -> bool
    ensures { result ≡ (int_lt (pos 0) reserve && is_zero load) }
{
    reserve > 0 && load == 0
}

impl HourOfDay<'_> {
    // The kWh assigned to all resources.
    fn reserve(&self) -> i64
        ensures { result ≡ total_assigned (the_day self.now.tables.now) self.now.hour.place }
    {
        self.sum_by_resource(&self.assigned_by_resource())
    }

    // The obligations, unless there is no load to carry them.
    pub(crate) fn carry_reserve<R: AllocationRule>(
        &self,
        rule: &R,
    ) -> Result<Obligations, BookFault>
        ensures { Carried (R.AllocationRule.shares rule.now) self.now.tables.now self.now.hour.place result }
    {
        let reserve = self.reserve();
        let loads = self.loads_by_member();
        let loads = &loads[..self.member_count()];
        if lacks_load(reserve, total_of(loads)) {
            return Err(BookFault::NobodyToCharge);
        }
        let owed = shares_of(rule, reserve, loads);
        let net = self.net_sales_by_member();
        let adjusted = self.added(&owed, &net);
        Ok(Obligations { owed, adjusted })
    }
}
