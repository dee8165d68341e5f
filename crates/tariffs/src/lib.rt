// What a set of steps costs.
#![tactic(auto)]

pub mod amount;
pub mod charge;
pub mod energy;
pub mod paired;
pub mod peak;
pub mod tariff;
