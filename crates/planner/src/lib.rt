// The search for the cheapest set of steps with which every task is in time.
#![tactic(auto)]

pub mod events;
pub mod findings;
pub mod mark;
pub mod planner;
pub mod refusals;
pub mod replay;
