// A planner: a roster and a test with the search for the cheapest set that passes.
use crate::findings::Shown;
use model::roster::Roster;
use odometer::wheels::Odometer;
use schedulability::floors::Floored;
use std::marker::Model;

pub mod calls;
mod search;

#[derive(Drop)]
pub struct Planner<Q, C> {
    roster: Roster,
    // floors count in what passes
    test: Floored<Q>,
    // stands at the set that is looked at next
    sets: Odometer,
    shown: Option<Shown<C>>,
}

// Clauses see what stands, the test, and how far the search has come.
impl<Q, C> Model for Planner<Q, C> {
    ghost use Rattle.planner.specs.State.{State};

    ghost Value = { State Q C };

    ghost use Rattle.planner.specs.Parts.{state, Fits};

    ghost view = { state };

    ghost invariant = { Fits };
}
