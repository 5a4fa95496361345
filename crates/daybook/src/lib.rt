// The day book over any allocation rule, and what holds of it after every list of calls.
#![tactic(auto)]

pub mod book;
pub mod call;
pub mod keeping;
pub mod ledger;
pub mod replay;
pub mod table;
