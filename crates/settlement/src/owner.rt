// A member as the owner of its resources.
ghost use Rattle.std.specs.Prelude.{◌≡◌, ◌≤◌, length, unsigned_abs};
ghost use Rattle.settlement.specs.Sums.{at};
ghost use Rattle.settlement.specs.Settlement.{own};
ghost use Rattle.settlement.specs.Figures.{the_day, Modest};

use crate::figures::own_sum;
use inputs::tables::Tables;
use rolls::limits::MAX_RESOURCES;

// The member stands at its place in the tables.
#[derive(Clone, Copy)]
pub struct Owner<'a> {
    pub tables: &'a Tables,
    pub member: usize,
}

impl Owner<'_> {
    // The sum of figures over the member's resources.
    // Its bound on the figures is asked for and no type's: columns have other bounds at each step, and are slices to a rule.
    pub fn sum(&self, figures: &[i64; MAX_RESOURCES]) -> i64
        requires { Modest (length (the_day self.now.tables.now).roll) figures.now }
        ensures value { result ≡ own (the_day self.now.tables.now) self.now.member (at figures.now) }
        ensures size { unsigned_abs result ≤ 16000000000000 }
    {
        own_sum(self.tables.resources(), self.member, figures)
    }
}
