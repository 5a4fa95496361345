// The interface of an allocation rule, and the examination of a request that serves every rule.
ghost use Rattle.std.specs.Prelude.{◌≡◌, ◌<◌, ◌≤◌, List, length, ℤ, Ok};
ghost use Rattle.allocation.specs.Weights.{total, magnitude};
ghost use Rattle.allocation.specs.Refusals.{verdict, Admissible};
ghost use Rattle.allocation.specs.Rules.{Allocated, EachRounded, EachClose};

use crate::refusal::AllocationRefusal;

pub const MAX_WEIGHTS: usize = 64;
// The largest sum of the magnitudes of the weights.
pub const MAX_MAGNITUDE: u128 = 2_000_000_000;
// The largest product of the amount and that sum.
pub const MAX_PRODUCT: u128 = 4_000_000_000_000_000_000;

pub trait AllocationRule {
    // What the rule means: one list of shares for each amount and weights.
    ghost shares: { Self → ℤ → List ℤ → List ℤ };

    // Writes the shares of the amount into `out`, or refuses and leaves it as it was.
    fn allocate(
        &self,
        amount: i64,
        weights: &[i64],
        out: &mut [i64],
    ) -> Result<(), AllocationRefusal>
        ensures { Allocated (verdict amount weights.now (length out.old)) result out.old out.new (shares self.now amount weights.now) };

    // There are as many shares as weights.
    ghost counted: { (rule : Self) (amount : ℤ) (weights : List ℤ) → Admissible amount weights → length (shares rule amount weights) ≡ length weights };

    // The shares add up to the amount.
    ghost whole: { (rule : Self) (amount : ℤ) (weights : List ℤ) → Admissible amount weights → total (shares rule amount weights) ≡ amount };

    // Each share is amount × weight ÷ the sum of the weights, taken down or up to a whole number.
    ghost rounded: { (rule : Self) (amount : ℤ) (weights : List ℤ) → Admissible amount weights → EachRounded amount weights (shares rule amount weights) };
}

// A request that passed the examination: the amount, its weights and their sum.
#[derive(Clone, Copy)]
pub(crate) struct Examined<'a> {
    pub(crate) amount: i64,
    pub(crate) weights: &'a [i64],
    pub(crate) whole: i64,
    ghost passed: { Admissible amount weights.now },
    ghost sum: { whole ≡ total weights.now },
}

// The sum of the magnitudes of the weights.
fn magnitude_of(weights: &[i64]) -> u128
    requires { length weights.now ≤ 64 }
    ensures { result ≡ magnitude weights.now }
{
    weights.iter().map(|w| u128::from(w.unsigned_abs())).sum()
}

// The sum of the weights, which are small enough together for it to fit. A loop: in a chain no bound of a signed sum is known.
pub fn total_of(weights: &[i64]) -> i64
    requires { magnitude weights.now ≤ 9223372036854775807 }
    ensures { result ≡ total weights.now }
{
    let mut sum: i64 = 0;
    for w in weights {
        sum += *w;
    }
    sum
}

// The sum of the weights, or why the amount is not to be allocated over them to so many places.
#[tactic(auto, using(std::proofs::lemmas::Bool::Decides::nat_tests, std::proofs::lemmas::Int::ints), unfolding(crate::specs::Refusals::verdict))]
pub fn examine(amount: i64, weights: &[i64], places: usize) -> Result<i64, AllocationRefusal>
    ensures { result ≡ verdict amount weights.now places }
{
    let count = weights.len();
    if count == 0 || count > MAX_WEIGHTS || places != count {
        return Err(AllocationRefusal::BadCount);
    }
    let magnitude = magnitude_of(weights);
    if amount < 0
        || magnitude > MAX_MAGNITUDE
        || u128::from(amount.unsigned_abs()) * magnitude > MAX_PRODUCT
    {
        return Err(AllocationRefusal::OutOfRange);
    }
    let sum = total_of(weights);
    if sum > 0 {
        Ok(sum)
    } else {
        Err(AllocationRefusal::NoWeight)
    }
}

// Allocates by any rule. Nothing of the amount is lost, and no share is off by a whole unit: the rule's laws say so.
pub fn allocate_by<R: AllocationRule>(
    rule: &R,
    amount: i64,
    weights: &[i64],
    out: &mut [i64],
) -> Result<(), AllocationRefusal>
    ensures allocated { Allocated (verdict amount weights.now (length out.old)) result out.old out.new (R.AllocationRule.shares rule.now amount weights.now) }
    ensures whole { result ≡ Ok tt → total out.new ≡ amount }
    ensures close { result ≡ Ok tt → EachClose amount weights.now out.new }
{
    rule.allocate(amount, weights, out)
}
