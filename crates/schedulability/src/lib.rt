// Schedulability tests: whether every task of a roster is in time under a set of steps.
#![tactic(auto)]

pub mod density;
pub mod floors;
pub mod margin;
pub mod monotone;
pub mod pair;
pub mod response;
pub mod test;
