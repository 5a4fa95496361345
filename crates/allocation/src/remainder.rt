// Largest remainder: each share is taken down, and the units left over go one each to the largest dropped fractions.
ghost use Rattle.std.specs.Prelude.{◌≡◌, ◌*◌, ◌<◌, ◌≤◌, map, length, ℤ, pos, ◌+ℤ◌, ◌-ℤ◌, ◌<ℤ◌, Ok, slice_index_or, slice_set, unsigned_abs};
ghost use Rattle.allocation.specs.Weights.{total};
ghost use Rattle.allocation.specs.Refusals.{verdict};
ghost use Rattle.allocation.specs.Rules.{Allocated};
ghost use Rattle.allocation.specs.Remainder.{lower, dropped, largest, remainder, LargestFirst};
ghost use Rattle.allocation.specs.Remainders.{remainder_counted, remainder_whole, remainder_rounded};

use crate::refusal::AllocationRefusal;
use crate::rule::{AllocationRule, Examined, MAX_WEIGHTS, examine};

#[derive(Clone, Copy, PartialEq, Eq, Debug)]
pub struct LargestRemainder;

// The place of the largest key, the earliest of equals.
fn largest_at(keys: &[i64]) -> usize
    requires { 0 < length keys.now }
    ensures value { result ≡ largest keys.now }
    ensures within { result < length keys.now }
{
    // A loop, since it runs for each unit handed out: in a chain the place has to be a part of each key.
    let mut best = 0;
    let mut most = keys[0];
    for (place, key) in keys.iter().enumerate() {
        if *key > most {
            most = *key;
            best = place;
        }
    }
    best
}

// One unit more to the place of the largest key, which then has none.
fn hand_out_one(shares: &mut [i64], keys: &mut [i64])
    requires some { 0 < length keys.old }
    requires places { length shares.old ≡ length keys.old }
    requires small { unsigned_abs (slice_index_or shares.old (largest keys.old) (pos 0)) ≤ 4000000000000000000 }
    ensures shares { shares.new ≡ slice_set shares.old (largest keys.old) (slice_index_or shares.old (largest keys.old) (pos 0) +ℤ pos 1) }
    ensures keys { keys.new ≡ slice_set keys.old (largest keys.old) (pos 0) }
{
    let at = largest_at(keys);
    shares[at] += 1;
    keys[at] = 0;
}

impl Examined<'_> {
    // A share taken down, and what it drops: one quotient and its rest.
    fn take_down(&self, weight: i64) -> (i64, i64)
        requires { unsigned_abs self.now.amount * unsigned_abs weight ≤ 4000000000000000000 }
        ensures share { result.0 ≡ lower self.now.amount self.now.whole weight }
        ensures drop { result.1 ≡ dropped self.now.amount self.now.whole weight }
    {
        let due = self.amount * weight;
        (due.div_euclid(self.whole), due.rem_euclid(self.whole))
    }

    // Writes each share taken down and what it drops, and answers what is left of the amount.
    // By place, in one walk: each weight is divided once, and after a walk over places and weights side by side nothing is known of the places.
    fn take_all_down(&self, shares: &mut [i64], keys: &mut [i64]) -> i64
        requires places { length shares.old ≡ length self.now.weights.now }
        requires room { length keys.old ≡ length self.now.weights.now }
        ensures shares { shares.new ≡ map (lower self.now.amount self.now.whole) self.now.weights.now }
        ensures keys { keys.new ≡ map (dropped self.now.amount self.now.whole) self.now.weights.now }
        ensures left { result ≡ self.now.amount -ℤ total (map (lower self.now.amount self.now.whole) self.now.weights.now) }
    {
        let mut left = self.amount;
        for (place, weight) in self.weights.iter().enumerate() {
            let (share, key) = self.take_down(*weight);
            shares[place] = share;
            keys[place] = key;
            left -= share;
        }
        left
    }

    // Writes the shares taken down, and then the units left over.
    fn write_shares(&self, shares: &mut [i64])
        requires { verdict self.now.amount self.now.weights.now (length shares.old) ≡ Ok self.now.whole }
        ensures { shares.new ≡ remainder self.now.amount self.now.weights.now }
    {
        // The shares stand in the caller's slice, so the keys have room of their own, of fixed size: there is no heap.
        let mut room = [0i64; MAX_WEIGHTS];
        let keys = &mut room[0..self.weights.len()];
        let left = self.take_all_down(shares, keys);
        for _ in 0..left {
            hand_out_one(shares, keys);
        }
    }
}

impl AllocationRule for LargestRemainder {
    ghost shares = { λ _ amount weights. remainder amount weights };

    ghost counted = { λ rule a ws h. remainder_counted a ws h.above };

    ghost whole = { λ rule a ws h. remainder_whole a ws h.above };

    ghost rounded = { λ rule a ws h. remainder_rounded a ws h.above };

    // The examination and one call, as in every rule: a method of the interface could not promise what this rule alone does.
    #[tactic(auto, using(crate::specs::Verdicts::admitted, crate::specs::Remainders::largest_remainders))]
    fn allocate(
        &self,
        amount: i64,
        weights: &[i64],
        out: &mut [i64],
    ) -> Result<(), AllocationRefusal>
        ensures allocated { Allocated (verdict amount weights.now (length out.old)) result out.old out.new (remainder amount weights.now) }
        ensures largest_first { result ≡ Ok tt → LargestFirst amount weights.now out.new }
    {
        let whole = examine(amount, weights, out.len())?;
        let request = Examined {
            amount,
            weights,
            whole,
        };
        request.write_shares(out);
        Ok(())
    }
}
