// Times and response windows of a roster's tasks.
#![tactic(auto)]

mod analysis;
mod assignment;
mod demand;
mod holds;
pub mod sets;
pub mod windows;
