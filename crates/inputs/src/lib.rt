// The day's inputs: every call that enters or corrects them, and every question about them.
#![tactic(auto)]

pub mod asking;
pub mod call;
pub mod entering;
pub mod tables;
