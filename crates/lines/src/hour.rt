// The settlement of an hour.
ghost use Rattle.std.specs.Prelude.{◌≡◌, ℕ, ◌<◌, ◌≤◌};
ghost use Rattle.inputs.specs.States.{state_of};
ghost use Rattle.settlement.specs.Settlement.{line_at, zero_line};
ghost use Rattle.lines.specs.Steps.{line_from};
ghost use Rattle.lines.specs.Outcomes.{SettledAs};

use crate::clearing::Clearing;
use crate::hour_of_day::HourOfDay;
use crate::obligations::Obligations;
use crate::payments::Payments;
use allocation::rule::AllocationRule;
use events::fault::BookFault;
use inputs::tables::Tables;
use refunds::rows::EventShortfalls;
use rolls::hour::HourPlace;
use rolls::limits::MAX_MEMBERS;
use settlement::figures::by_place;
use settlement::line::Line;

// The line of each member by its place, and the total of clearing credits, lost opportunity cost credits and refunds paid.
#[derive(Clone, Copy)]
pub struct SettledHour {
    pub lines: [Line; MAX_MEMBERS],
    pub total: i64,
}

// The line of the member at a place.
fn line_of(owed: &Obligations, cleared: &Clearing, payments: &Payments, member: usize) -> Line
    requires { member < 16 }
    ensures { result ≡ line_from owed.now cleared.now payments.now member }
{
    Line {
        obligation: owed.owed[member],
        adjusted_obligation: owed.adjusted[member],
        clearing_charge: cleared.clearing_charges[member],
        opportunity_cost_charge: cleared.opportunity_cost_charges[member],
        refund_charged: payments.charged[member],
        clearing_credit: cleared.clearing_credits[member],
        opportunity_cost_credit: cleared.opportunity_cost_credits[member],
        refund_paid: payments.paid[member],
    }
}

// The lines of all members, and zeros past the last.
fn lines_of(
    count: usize,
    owed: &Obligations,
    cleared: &Clearing,
    payments: &Payments,
) -> [Line; MAX_MEMBERS]
    requires { count ≤ 16 }
    ensures members { (m : ℕ) → m < count → line_at result m ≡ line_from owed.now cleared.now payments.now m }
    ensures rest { (m : ℕ) → count ≤ m → line_at result m ≡ zero_line }
{
    by_place(
        count,
        Line::ZERO,
        |member| line_of(owed, cleared, payments, member),
    )
}

// Settles the hour at a place, or refuses where nobody is there to charge.
pub fn settle_hour<R: AllocationRule>(
    rule: &R,
    tables: &Tables,
    hour: HourPlace,
) -> Result<SettledHour, BookFault>
    ensures { SettledAs (R.AllocationRule.shares rule.now) (state_of tables.now).inputs hour.place result }
{
    let this_hour = HourOfDay { tables, hour };
    let owed = this_hour.carry_reserve(rule)?;
    let shortfalls = EventShortfalls::of(tables);
    let largest = shortfalls.largest_shortfalls(hour);
    let credits = this_hour.credit_resources(&largest);
    let payments = this_hour.pay_refunds(rule, &shortfalls, &owed, &credits.tier_one)?;
    let cleared = this_hour.clear(rule, &owed, &credits);
    Ok(SettledHour {
        lines: lines_of(this_hour.member_count(), &owed, &cleared, &payments),
        total: cleared.total + payments.total,
    })
}
