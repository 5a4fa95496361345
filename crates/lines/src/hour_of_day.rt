// An hour of the day that the tables hold.
ghost use Rattle.std.specs.Prelude.{◌≡◌, ℕ, ◌<◌, ◌≤◌};
ghost use Rattle.settlement.specs.Sums.{at};
ghost use Rattle.settlement.specs.Figures.{the_day};

use inputs::tables::Tables;
use rolls::hour::HourPlace;
use rolls::limits::MAX_MEMBERS;
use settlement::figures::by_place;

// The methods for each step of settlement stand beside what the step answers.
#[derive(Clone, Copy)]
pub(crate) struct HourOfDay<'a> {
    pub(crate) tables: &'a Tables,
    pub(crate) hour: HourPlace,
}

impl HourOfDay<'_> {
    // How many members there are, which is never above the limit.
    pub(crate) fn member_count(&self) -> usize
        ensures value { result ≡ (the_day self.now.tables.now).member_count }
        ensures few { result ≤ 16 }
    {
        self.tables.member_count()
    }

    // A figure for each member, and zero after the last.
    pub(crate) fn by_member<F: Fn(usize) -> i64>(&self, of: F) -> [i64; MAX_MEMBERS]
        requires { (m : ℕ) → m < (the_day self.now.tables.now).member_count → F.pre of m }
        ensures { (m : ℕ) → m < (the_day self.now.tables.now).member_count → F.post of m (at result m) }
    {
        by_place(self.member_count(), 0, of)
    }
}
