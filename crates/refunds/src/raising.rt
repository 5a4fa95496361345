// Larger figures by resource.
ghost use Rattle.std.specs.Prelude.{◌≡◌, ℕ, ◌<◌};
ghost use Rattle.std.specs.Int.{int_max};
ghost use Rattle.settlement.specs.Sums.{at};

use rolls::limits::MAX_RESOURCES;
use settlement::figures::by_place;

// The larger of two figures at each place.
pub(crate) fn larger(
    figures: &[i64; MAX_RESOURCES],
    others: &[i64; MAX_RESOURCES],
) -> [i64; MAX_RESOURCES]
    ensures { (r : ℕ) → r < 16 → at result r ≡ int_max (at figures.now r) (at others.now r) }
{
    by_place(MAX_RESOURCES, 0, |place| figures[place].max(others[place]))
}
