// The figures of one owner's resources.
ghost use Rattle.std.specs.Prelude.{◌≡◌, length};
ghost use Rattle.settlement.specs.Sums.{allocated};
ghost use Rattle.settlement.specs.Days.{resources, owned};
ghost use Rattle.settlement.specs.Laws.{Allocable};
ghost use Rattle.settlement.specs.Figures.{the_day, Modest};
ghost use Rattle.refunds.specs.Rows.{own_figures, net_of, ScatteredFor};

use allocation::rule::AllocationRule;
use rolls::limits::MAX_RESOURCES;
use rolls::roll::Roll;
use settlement::figures::allocate_amount;
use settlement::owner::Owner;

// The figures of a member's resources, in order.
fn gather(owner: &Owner, figures: &[i64; MAX_RESOURCES]) -> Roll<i64, MAX_RESOURCES>
    ensures { result ≡ own_figures (the_day owner.now.tables.now) owner.now.member figures.now }
{
    // By place: there is a figure for every place of the tables, also past the last resource.
    let mut own = Roll::empty(0);
    for (place, resource) in owner.tables.resources().iter().enumerate() {
        if resource.owner == owner.member {
            let _ = own.push(figures[place]);
        }
    }
    own
}

// Writes the shares of a member's resources at their places, in order, and no other.
fn scatter(owner: &Owner, shares: &[i64], out: &mut [i64; MAX_RESOURCES])
    requires { length shares.now ≡ length (owned (the_day owner.now.tables.now) owner.now.member (resources (the_day owner.now.tables.now))) }
    ensures { ScatteredFor (the_day owner.now.tables.now) owner.now.member shares.now out.old out.new }
{
    // By place over the roll, since there is room for every place of the tables, also past the last resource.
    // How many shares are written: they stand close together, their resources do not.
    let mut next = 0;
    for (place, resource) in owner.tables.resources().iter().enumerate() {
        if resource.owner == owner.member {
            out[place] = shares[next];
            next += 1;
        }
    }
}

// What the shortfalls of a member's resources exceed their over-responses by, zero at least.
fn net_shortfall(
    owner: &Owner,
    shortfalls: &[i64; MAX_RESOURCES],
    over_responses: &[i64; MAX_RESOURCES],
) -> i64
    requires small { Modest (length (the_day owner.now.tables.now).roll) shortfalls.now }
    requires modest { Modest (length (the_day owner.now.tables.now).roll) over_responses.now }
    ensures { result ≡ net_of (the_day owner.now.tables.now) owner.now.member shortfalls.now over_responses.now }
{
    let short = owner.sum(shortfalls);
    let over = owner.sum(over_responses);
    (short - over).max(0)
}

// Allocates a member's net shortfall over its resources by their shortfalls, and writes the shares at their places.
pub(crate) fn allocate_net<R: AllocationRule>(
    rule: &R,
    owner: &Owner,
    shortfalls: &[i64; MAX_RESOURCES],
    over_responses: &[i64; MAX_RESOURCES],
    out: &mut [i64; MAX_RESOURCES],
)
    requires small { Modest (length (the_day owner.now.tables.now).roll) shortfalls.now }
    requires modest { Modest (length (the_day owner.now.tables.now).roll) over_responses.now }
    requires allocable { Allocable (net_of (the_day owner.now.tables.now) owner.now.member shortfalls.now over_responses.now) (own_figures (the_day owner.now.tables.now) owner.now.member shortfalls.now) }
    ensures { ScatteredFor (the_day owner.now.tables.now) owner.now.member (allocated (R.AllocationRule.shares rule.now) (net_of (the_day owner.now.tables.now) owner.now.member shortfalls.now over_responses.now) (own_figures (the_day owner.now.tables.now) owner.now.member shortfalls.now)) out.old out.new }
{
    let net = net_shortfall(owner, shortfalls, over_responses);
    let weights = gather(owner, shortfalls);
    // Fixed memory for as many shares as a member can have resources, of which the first are used.
    let mut room = [0; MAX_RESOURCES];
    let shares = &mut room[0..weights.len()];
    allocate_amount(rule, net, weights.as_slice(), shares);
    scatter(owner, shares, out);
}
