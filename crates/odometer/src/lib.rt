// Sets of steps by number, most significant place first, as an odometer that goes forward only.
#![tactic(auto)]

pub mod wheels;
