// What is entered for an hour: prices, loads, assignments, and which hours are settled.
#![tactic(auto)]

pub mod assignment;
pub mod hour;
pub mod settled;
pub mod tables;
