// Weights that serve in the place of others, and shares by weights.
ghost use Rattle.std.specs.Prelude.{◌≡◌, ◌≤◌, length, take};
ghost use Rattle.settlement.specs.Sums.{all_zero, or_else, allocated};
ghost use Rattle.settlement.specs.Laws.{Allocable};

use allocation::rule::AllocationRule;
use rolls::limits::MAX_MEMBERS;
use settlement::figures::allocate_amount;

// Whether every weight is zero.
pub(crate) fn is_all_zero(weights: &[i64]) -> bool
    ensures { result ≡ all_zero weights.now }
{
    weights.iter().all(|weight| *weight == 0)
}

// The first weights, unless all of them are zero: then the second.
pub(crate) fn or_else<'a>(first: &'a [i64], second: &'a [i64]) -> &'a [i64]
    ensures { result.now ≡ or_else first.now second.now }
{
    if is_all_zero(first) { second } else { first }
}

// The members' shares of an amount by their weights.
pub(crate) fn shares_of<R: AllocationRule>(
    rule: &R,
    amount: i64,
    weights: &[i64],
) -> [i64; MAX_MEMBERS]
    requires few { length weights.now ≤ 16 }
    requires allocable { Allocable amount weights.now }
    ensures { take (length weights.now) result ≡ allocated (R.AllocationRule.shares rule.now) amount weights.now }
{
    // Room of fixed size, of which the front is used: there is no heap.
    let mut shares = [0; MAX_MEMBERS];
    allocate_amount(rule, amount, weights, &mut shares[..weights.len()]);
    shares
}
