// Steps, tasks, sections, and the roster that holds them.
#![tactic(auto)]

pub mod kinds;
pub mod lookup;
pub mod refusals;
pub mod roster;
mod rules;
mod table;
