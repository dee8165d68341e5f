// Roster files: what a file says, and where one is wrong.
#![tactic(auto)]

pub mod blocks;
pub mod fault;
pub mod rows;
