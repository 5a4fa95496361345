// Figures of the members in an hour.
ghost use Rattle.std.specs.Prelude.{◌≡◌, length, ℤ, pos, ◌+ℤ◌, ◌-ℤ◌, if◌then◌else◌, int_lt};
ghost use Rattle.settlement.specs.Sums.{sum, largest, at, at_least_zero};
ghost use Rattle.settlement.specs.Days.{load, resources as resources_of, owned};
ghost use Rattle.settlement.specs.Settlement.{own};
ghost use Rattle.settlement.specs.Figures.{ByMember, Modest, Moderate, the_day, the_hour};

use crate::hour_of_day::HourOfDay;
use allocation::rule::total_of;
use rolls::limits::{MAX_MEMBERS, MAX_RESOURCES};
use settlement::owner::Owner;

impl HourOfDay<'_> {
    // The load of each member.
    pub(crate) fn loads_by_member(&self) -> [i64; MAX_MEMBERS]
        ensures { ByMember self.now.tables.now result (load (the_hour self.now.tables.now self.now.hour.place)) }
    {
        let loads = self.tables.hour_at(self.hour).loads;
        self.by_member(|member| i64::from(loads[member]))
    }

    // The sum of figures over the resources of each member.
    pub(crate) fn own_sums(&self, figures: &[i64; MAX_RESOURCES]) -> [i64; MAX_MEMBERS]
        requires { Modest (length (the_day self.now.tables.now).roll) figures.now }
        ensures value { ByMember self.now.tables.now result (λ m. own (the_day self.now.tables.now) m (at figures.now)) }
        ensures size { Moderate (the_day self.now.tables.now).member_count result }
    {
        self.by_member(|member| {
            let owner = Owner {
                tables: self.tables,
                member,
            };
            owner.sum(figures)
        })
    }

    // The sum of figures over all resources.
    pub(crate) fn sum_by_resource(&self, figures: &[i64; MAX_RESOURCES]) -> i64
        requires { Moderate (length (the_day self.now.tables.now).roll) figures.now }
        ensures { result ≡ sum (resources_of (the_day self.now.tables.now)) (at figures.now) }
    {
        total_of(&figures[..self.tables.resources().len()])
    }

    // The figures of two lists added, member by member.
    pub(crate) fn added(
        &self,
        first: &[i64; MAX_MEMBERS],
        second: &[i64; MAX_MEMBERS],
    ) -> [i64; MAX_MEMBERS]
        requires first { Moderate (the_day self.now.tables.now).member_count first.now }
        requires second { Moderate (the_day self.now.tables.now).member_count second.now }
        ensures { ByMember self.now.tables.now result (λ m. at first.now m +ℤ at second.now m) }
    {
        self.by_member(|member| first[member] + second[member])
    }

    // What remains of each member's figure when that of its resources is taken from it, zero at least.
    pub(crate) fn less_own(
        &self,
        adjusted: &[i64; MAX_MEMBERS],
        figures: &[i64; MAX_RESOURCES],
    ) -> [i64; MAX_MEMBERS]
        requires adjusted { Moderate (the_day self.now.tables.now).member_count adjusted.now }
        requires small { Modest (length (the_day self.now.tables.now).roll) figures.now }
        ensures { ByMember self.now.tables.now result (λ m. at_least_zero (at adjusted.now m -ℤ own (the_day self.now.tables.now) m (at figures.now))) }
    {
        let own = self.own_sums(figures);
        self.by_member(|member| (adjusted[member] - own[member]).max(0))
    }

    // Whether a member has a resource with a day refund above zero.
    fn is_refunding(&self, member: usize, refunds: &[i64; MAX_RESOURCES]) -> bool
        ensures { result ≡ int_lt (pos 0) (largest (owned (the_day self.now.tables.now) member (resources_of (the_day self.now.tables.now))) (at refunds.now)) }
    {
        let resources = self.tables.resources();
        resources.iter().zip(refunds).any(|(resource, refund)| resource.owner == member
            && *refund > 0)
    }

    // The weights of the members, with none for a member that has a day refund to pay.
    pub(crate) fn without_refunding(
        &self,
        weights: &[i64; MAX_MEMBERS],
        refunds: &[i64; MAX_RESOURCES],
    ) -> [i64; MAX_MEMBERS]
        ensures { ByMember self.now.tables.now result (λ m. (if int_lt (pos 0) (largest (owned (the_day self.now.tables.now) m (resources_of (the_day self.now.tables.now))) (at refunds.now)) then pos 0 else at weights.now m)) }
    {
        self.by_member(|member| {
            if self.is_refunding(member, refunds) {
                0
            } else {
                weights[member]
            }
        })
    }
}
