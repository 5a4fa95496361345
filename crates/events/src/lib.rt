// Resources, what their meters say, and the synchronized reserve events of a day.
#![tactic(auto)]

pub mod calls;
pub mod event;
pub mod fault;
pub mod resource;
pub mod sample;
