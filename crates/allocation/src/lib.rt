// Allocation of a whole amount over weights: what every rule means and owes, and the rules.
// A share may be energy, money or minutes; nothing here knows which.
#![tactic(auto)]

pub mod cumulative;
pub mod refusal;
pub mod remainder;
pub mod rule;
