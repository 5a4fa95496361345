// The bilateral trades of the day.
#![tactic(auto)]

pub mod standing;
pub mod trade;
