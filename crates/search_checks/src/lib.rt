// Examples of searches, run against the library. The crate has nothing but its tests.
#![tactic(auto)]

#[cfg(test)]
mod plans;
