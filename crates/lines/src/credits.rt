// What each resource is assigned, delivers and is credited with in an hour.
ghost use Rattle.std.specs.Prelude.{◌≡◌, ℕ, ◌≤◌, ◌&&◌, ℤ, pos, ◌*ℤ◌, ◌≤ℤ◌, if◌then◌else◌, nat_eq};
ghost use Rattle.hours.specs.Assignments.{Small};
ghost use Rattle.settlement.specs.Sums.{largest, per_thousand};
ghost use Rattle.settlement.specs.Days.{assigned as assigned_in, is_tier_one};
ghost use Rattle.settlement.specs.Shortfalls.{shortfall};
ghost use Rattle.settlement.specs.Settlement.{opportunity_cost, counted_here, delivered_tier_one, clearing_credit_of, opportunity_cost_credit_of};
ghost use Rattle.settlement.specs.Figures.{ByResource, the_day, the_hour};
ghost use Rattle.lines.specs.Steps.{CreditsOf};

use crate::delivered::Delivered;
use crate::hour_of_day::HourOfDay;
use hours::assignment::Assignment;
use hours::hour::Hour;
use rolls::limits::MAX_RESOURCES;
use settlement::figures::{assigned_kwh, by_resource, cents};

// By the resources' places: kWh delivered, those of Tier 1, and credits in cents.
// Columns, since sums go over one of them at a time.
#[derive(Clone, Copy)]
pub(crate) struct Credits {
    pub(crate) delivered: [i64; MAX_RESOURCES],
    pub(crate) tier_one: [i64; MAX_RESOURCES],
    pub(crate) clearing: [i64; MAX_RESOURCES],
    pub(crate) opportunity_costs: [i64; MAX_RESOURCES],
}

fn is_tier_one(assignment: Assignment<u32>) -> bool
    ensures { result ≡ is_tier_one assignment }
{
    matches!(assignment, Assignment::TierOne { .. })
}

// The clearing credit of delivered kWh; Tier 1 has none while the non-synchronized price is zero.
fn credit_of(assignment: Assignment<u32>, hour: &Hour, delivered: i64) -> i64
    requires low { pos 0 ≤ℤ delivered }
    requires most { delivered ≤ℤ pos 500000 }
    requires price { hour.now.synchronized_price ≤ 400000 }
    ensures { result ≡ (if is_tier_one assignment && nat_eq hour.now.non_synchronized_price 0 then pos 0 else per_thousand (pos hour.now.synchronized_price *ℤ delivered)) }
{
    if is_tier_one(assignment) && hour.non_synchronized_price == 0 {
        return 0;
    }
    cents(delivered, hour.synchronized_price)
}

// The lost opportunity cost credit of delivered kWh: the offer for them and the costs less what clearing pays.
fn opportunity_cost_of(assignment: Assignment<u32>, delivered: i64, clearing: i64) -> i64
    requires small { Small assignment }
    requires low { pos 0 ≤ℤ delivered }
    requires most { delivered ≤ℤ pos 500000 }
    requires clearing { pos 0 ≤ℤ clearing }
    ensures { result ≡ opportunity_cost assignment delivered clearing }
{
    match assignment {
        Assignment::PoolScheduled { kwh, offer, costs } if kwh > 0 => {
            let costs = i64::from(costs);
            (cents(delivered, offer) + costs - clearing).max(0)
        }
        _ => 0,
    }
}

impl<'a> HourOfDay<'a> {
    // The kWh assigned to each resource.
    pub(crate) fn assigned_by_resource(&self) -> [i64; MAX_RESOURCES]
        ensures { ByResource self.now.tables.now result (assigned_in (the_day self.now.tables.now) self.now.hour.place) }
    {
        by_resource(
            self.tables,
            |resource| assigned_kwh(self.tables, self.hour, resource),
        )
    }

    // The kWh that each resource delivers: what it is assigned less its largest shortfall, zero at least.
    fn delivered_by_resource(&self, shortfalls: &[i64; MAX_RESOURCES]) -> Delivered<'a>
        requires { ByResource self.now.tables.now shortfalls.now (λ r. largest (counted_here (the_day self.now.tables.now) self.now.hour.place) (λ e. shortfall (the_day self.now.tables.now) e r)) }
        ensures { result.hour ≡ self.now }
    {
        let kwh = by_resource(self.tables, |resource| {
            let assigned = assigned_kwh(self.tables, self.hour, resource);
            (assigned - shortfalls[resource]).max(0)
        });
        Delivered { hour: *self, kwh }
    }

    // What each resource delivers and is credited with.
    pub(crate) fn credit_resources(&self, shortfalls: &[i64; MAX_RESOURCES]) -> Credits
        requires { ByResource self.now.tables.now shortfalls.now (λ r. largest (counted_here (the_day self.now.tables.now) self.now.hour.place) (λ e. shortfall (the_day self.now.tables.now) e r)) }
        ensures { CreditsOf self.now.tables.now self.now.hour.place result }
    {
        let delivered = self.delivered_by_resource(shortfalls);
        let clearing = delivered.clearing();
        Credits {
            delivered: delivered.kwh,
            tier_one: delivered.tier_one(),
            clearing,
            opportunity_costs: delivered.opportunity_costs(&clearing),
        }
    }
}

impl Delivered<'_> {
    // The kWh that each Tier 1 resource delivers, and zero for the others.
    fn tier_one(&self) -> [i64; MAX_RESOURCES]
        ensures { ByResource self.now.hour.tables.now result (delivered_tier_one (the_day self.now.hour.tables.now) self.now.hour.hour.place) }
    {
        let HourOfDay { tables, hour } = self.hour;
        by_resource(tables, |resource| {
            if is_tier_one(tables.assignment_at(hour, resource)) {
                self.kwh[resource]
            } else {
                0
            }
        })
    }

    // The clearing credit of each resource.
    fn clearing(&self) -> [i64; MAX_RESOURCES]
        ensures { ByResource self.now.hour.tables.now result (clearing_credit_of (the_day self.now.hour.tables.now) self.now.hour.hour.place (the_hour self.now.hour.tables.now self.now.hour.hour.place)) }
    {
        let HourOfDay { tables, hour } = self.hour;
        let prices = tables.hour_at(hour);
        by_resource(tables, |resource| {
            let assignment = tables.assignment_at(hour, resource);
            credit_of(assignment, &prices, self.kwh[resource])
        })
    }

    // The lost opportunity cost credit of each resource.
    fn opportunity_costs(&self, clearing: &[i64; MAX_RESOURCES]) -> [i64; MAX_RESOURCES]
        requires { ByResource self.now.hour.tables.now clearing.now (clearing_credit_of (the_day self.now.hour.tables.now) self.now.hour.hour.place (the_hour self.now.hour.tables.now self.now.hour.hour.place)) }
        ensures { ByResource self.now.hour.tables.now result (opportunity_cost_credit_of (the_day self.now.hour.tables.now) self.now.hour.hour.place (the_hour self.now.hour.tables.now self.now.hour.hour.place)) }
    {
        let HourOfDay { tables, hour } = self.hour;
        by_resource(tables, |resource| {
            let assignment = tables.assignment_at(hour, resource);
            opportunity_cost_of(assignment, self.kwh[resource], clearing[resource])
        })
    }
}
