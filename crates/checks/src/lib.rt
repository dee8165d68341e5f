// Examples at the limits of the rules, run against the library. The crate has nothing but its tests.
#![tactic(auto)]

#[cfg(test)]
mod charges;
#[cfg(test)]
mod numbers;
#[cfg(test)]
mod rosters;
#[cfg(test)]
mod sections;
#[cfg(test)]
mod small;
#[cfg(test)]
mod stretches;
#[cfg(test)]
mod verdicts;
