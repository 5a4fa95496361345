// What settlement means, the laws of a settled hour under every rule, and the figures that its steps share.
#![tactic(auto)]

pub mod figures;
pub mod line;
pub mod owner;
