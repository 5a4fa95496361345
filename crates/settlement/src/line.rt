// A member's settled hour.

// Obligations in kWh; charges, credits and refunds in cents.
#[derive(Clone, Copy, PartialEq, Eq, Debug)]
pub struct Line {
    // What the member had to carry, by its load, and the same with its sales less its purchases.
    pub obligation: i64,
    pub adjusted_obligation: i64,
    pub clearing_charge: i64,
    pub opportunity_cost_charge: i64,
    pub refund_charged: i64,
    pub clearing_credit: i64,
    pub opportunity_cost_credit: i64,
    pub refund_paid: i64,
}

impl Line {
    // The line of whoever takes no part.
    pub const ZERO: Line = Line {
        obligation: 0,
        adjusted_obligation: 0,
        clearing_charge: 0,
        opportunity_cost_charge: 0,
        refund_charged: 0,
        clearing_credit: 0,
        opportunity_cost_credit: 0,
        refund_paid: 0,
    };
}
