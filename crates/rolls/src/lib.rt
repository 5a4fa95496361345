// Codes, lists in fixed memory, the one way to find by key, the places of hours, and the bounds of the unit.
#![tactic(auto)]

pub mod code;
pub mod find;
pub mod hour;
pub mod limits;
pub mod roll;
