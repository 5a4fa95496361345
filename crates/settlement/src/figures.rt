// The figures that the steps of settlement share: assigned kWh, cents, allocated amounts, sums over a member's resources, figures by place.
ghost use Rattle.std.specs.Prelude.{◌≡◌, ℕ, ◌<◌, ◌≤◌, length, pos, ◌*ℤ◌, ◌≤ℤ◌, filter, nat_eq, slice_index_or, unsigned_abs};
ghost use Rattle.std.specs.List.{range_with_len};
ghost use Rattle.allocation.specs.Rounding.{half_up};
ghost use Rattle.events.specs.Resources.{no_resource};
ghost use Rattle.hours.specs.Assignments.{kwh_of};
ghost use Rattle.settlement.specs.Sums.{sum, at, allocated};
ghost use Rattle.settlement.specs.Days.{assigned};
ghost use Rattle.settlement.specs.Figures.{the_day};
ghost use Rattle.settlement.specs.Laws.{Allocable};

use allocation::cumulative::divide_half_up;
use allocation::rule::AllocationRule;
use events::resource::Resource;
use hours::assignment::Assignment;
use inputs::tables::Tables;
use rolls::hour::HourPlace;
use rolls::limits::MAX_RESOURCES;

const KWH_PER_MWH: i64 = 1000;

// The kWh of an assignment.
pub fn kwh(assignment: Assignment<u32>) -> i64
    ensures { result ≡ pos (kwh_of assignment) }
{
    match assignment {
        Assignment::Unassigned => 0,
        Assignment::TierOne { kwh }
        | Assignment::SelfScheduled { kwh }
        | Assignment::PoolScheduled { kwh, .. } => i64::from(kwh),
    }
}

// The kWh assigned to the resource at a place in an hour.
pub fn assigned_kwh(tables: &Tables, hour: HourPlace, resource: usize) -> i64
    requires { resource < length (the_day tables.now).roll }
    ensures value { result ≡ assigned (the_day tables.now) hour.place resource }
    ensures low { pos 0 ≤ℤ result }
    ensures most { result ≤ℤ pos 500000 }
{
    kwh(tables.assignment_at(hour, resource))
}

// kWh at a price in cents per MWh, in cents, half up.
// A quantity is a plain `i64` with its bounds asked for: it comes out of columns that a rule takes as weights.
pub fn cents(quantity: i64, price: u32) -> i64
    requires low { pos 0 ≤ℤ quantity }
    requires most { quantity ≤ℤ pos 500000 }
    requires price { price ≤ 4000000 }
    ensures { result ≡ half_up (quantity *ℤ pos price) (pos 1000) }
{
    let price = i64::from(price);
    divide_half_up(quantity * price, KWH_PER_MWH)
}

// Writes the shares of an amount that the rule does not refuse; of nothing it writes zeros unasked.
pub fn allocate_amount<R: AllocationRule>(
    rule: &R,
    amount: i64,
    weights: &[i64],
    shares: &mut [i64],
)
    requires allocable { Allocable amount weights.now }
    requires places { length shares.old ≡ length weights.now }
    ensures { shares.new ≡ allocated (R.AllocationRule.shares rule.now) amount weights.now }
{
    if amount == 0 {
        shares.fill(0);
    } else {
        let _ = rule.allocate(amount, weights, shares);
    }
}

// The sum of figures over the resources of a member.
pub fn own_sum(resources: &[Resource], member: usize, figures: &[i64]) -> i64
    requires few { length resources.now ≤ 16 }
    requires places { length figures.now ≡ 16 }
    requires small { (r : ℕ) → r < length resources.now → unsigned_abs (at figures.now r) ≤ 1000000000000 }
    ensures value { result ≡ sum (filter (λ k. nat_eq (slice_index_or resources.now k no_resource).owner member) (range_with_len 0 (length resources.now))) (at figures.now) }
    ensures size { unsigned_abs result ≤ 16000000000000 }
{
    // By place, and in a loop: there are more figures than resources, and in a chain no bound of a signed sum is known.
    let mut sum = 0;
    for (place, resource) in resources.iter().enumerate() {
        if resource.owner == member {
            sum += figures[place];
        }
    }
    sum
}

// What each of the first places has, and the same for all after them. What is made of several arrays is made by
// place, since a place of the tables is what they have in common. A loop: `array::from_fn` asks that arrays of every
// size fit in memory.
pub fn by_place<T: Copy, const N: usize, F: Fn(usize) -> T>(count: usize, after: T, of: F) -> [T; N]
    requires room { count ≤ N }
    requires each { (k : ℕ) → k < count → F.pre of k }
    ensures first { (k : ℕ) → k < count → F.post of k (slice_index_or result k after) }
    ensures others { (k : ℕ) → count ≤ k → slice_index_or result k after ≡ after }
{
    let mut all = [after; N];
    for (place, slot) in all[..count].iter_mut().enumerate() {
        *slot = of(place);
    }
    all
}

// The figure of each resource; zero after the last.
pub fn by_resource<F: Fn(usize) -> i64>(tables: &Tables, of: F) -> [i64; MAX_RESOURCES]
    requires { (r : ℕ) → r < length (the_day tables.now).roll → F.pre of r }
    ensures { (r : ℕ) → r < length (the_day tables.now).roll → F.post of r (at result r) }
{
    by_place(tables.resource_count(), 0, of)
}
