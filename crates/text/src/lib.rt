// Texts of lines, items and decimal numbers.
#![tactic(auto)]

pub mod items;
pub mod numbers;
pub mod reader;
mod separators;
