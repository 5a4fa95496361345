// Shortfalls in the day's events, and the refunds that they call for.
#![tactic(auto)]

mod daily;
mod event;
mod minutes;
mod owners;
mod parts;
mod raising;
mod responses;
mod retroactive;
pub mod rows;
mod shortfalls;
