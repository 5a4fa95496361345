// The lines of a settled hour: obligations, charges, credits and refunds of each member.
#![tactic(auto)]

mod clearing;
mod credits;
mod delivered;
pub mod hour;
mod hour_of_day;
mod members;
mod obligations;
mod payments;
mod sums;
mod trading;
