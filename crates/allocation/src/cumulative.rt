// Cumulative rounding: each share is the rise of what the weights so far are owed together, rounded half up.
ghost use Rattle.std.specs.Prelude.{◌≡◌, ◌*◌, ◌≤◌, length, ℤ, pos, ◌*ℤ◌, ◌≤ℤ◌, ◌<ℤ◌, Ok, unsigned_abs};
ghost use Rattle.allocation.specs.Rounding.{half_up};
ghost use Rattle.allocation.specs.Refusals.{verdict};
ghost use Rattle.allocation.specs.Rules.{Allocated};
ghost use Rattle.allocation.specs.Cumulative.{cumulative, FirstShares, rise};
ghost use Rattle.std.proofs.lemmas.List.FromFn.{length-map-range_with_len};
ghost use Rattle.allocation.specs.Figures.{cumulative_whole, cumulative_rounded};

use crate::refusal::AllocationRefusal;
use crate::rule::{AllocationRule, Examined, examine};

#[derive(Clone, Copy, PartialEq, Eq, Debug)]
pub struct CumulativeRounding;

// x ÷ w rounded half up.
pub fn divide_half_up(x: i64, w: i64) -> i64
    requires small { unsigned_abs x ≤ 4000000000000000000 }
    requires above { pos 0 <ℤ w }
    requires light { w ≤ℤ pos 2000000000 }
    ensures value { result ≡ half_up x w }
    ensures bound { unsigned_abs result ≤ 4000000002000000000 }
{
    (2 * x + w).div_euclid(2 * w)
}

impl Examined<'_> {
    // What weights that come to `sum` are owed together.
    fn owed(&self, sum: i64) -> i64
        requires { unsigned_abs self.now.amount * unsigned_abs sum ≤ 4000000000000000000 }
        ensures value { result ≡ half_up (self.now.amount *ℤ sum) self.now.whole }
        ensures bound { unsigned_abs result ≤ 4000000002000000000 }
    {
        divide_half_up(self.amount * sum, self.whole)
    }

    // Writes the rises: each place holds its weight, and then its share. After a walk over places and weights side by side nothing is known of the places.
    fn write_rises(&self, out: &mut [i64])
        requires { verdict self.now.amount self.now.weights.now (length out.old) ≡ Ok self.now.whole }
        ensures { out.new ≡ cumulative self.now.amount self.now.weights.now }
    {
        out.copy_from_slice(self.weights);
        let mut sum: i64 = 0;
        let mut before: i64 = 0;
        for place in out.iter_mut() {
            sum += *place;
            let figure = self.owed(sum);
            *place = figure - before;
            before = figure;
        }
    }
}

impl AllocationRule for CumulativeRounding {
    ghost shares = { λ _ amount weights. cumulative amount weights };

    ghost counted = { λ rule a ws h. length-map-range_with_len (rise a ws) 0 (length ws) };

    ghost whole = { λ rule a ws h. cumulative_whole a ws h.above };

    ghost rounded = { λ rule a ws h. cumulative_rounded a ws h.above };

    // The examination and one call, as in every rule: a method of the interface could not promise what this rule alone does.
    #[tactic(auto, using(crate::specs::Verdicts::admitted, crate::specs::Figures::first_shares))]
    fn allocate(
        &self,
        amount: i64,
        weights: &[i64],
        out: &mut [i64],
    ) -> Result<(), AllocationRefusal>
        ensures allocated { Allocated (verdict amount weights.now (length out.old)) result out.old out.new (cumulative amount weights.now) }
        ensures first_shares { result ≡ Ok tt → FirstShares amount weights.now out.new }
    {
        let whole = examine(amount, weights, out.len())?;
        let request = Examined {
            amount,
            weights,
            whole,
        };
        request.write_rises(out);
        Ok(())
    }
}
