// What one question about an assignment works out once.
ghost use Rattle.std.specs.Prelude.{◌≡◌, ℕ, ◌<◌, length, take, Decides, MatchResult};
ghost use Rattle.model.specs.Of.{of};
ghost use Rattle.model.specs.Refusals.{call_number, First};
ghost use Rattle.timing.specs.Demand.{Judged};
ghost use Rattle.timing.specs.Times.{front, loads as loads_of, holds as holds_of};
ghost use Rattle.timing.specs.Windows.{own, task, demand_at, MeetsAt, AllMeet, SetRule};

use crate::assignment::Assignment;
use crate::demand::{Demand, Load};
use crate::holds::{Hold, blocking};
use arrayvec::ArrayVec;
use model::kinds::{MAX_SECTIONS, MAX_TASKS};
use model::refusals::CallRefusal;
use model::roster::Roster;

#[derive(Drop)]
pub(crate) struct Analysis<'a> {
    given: Assignment<'a>,
    loads: ArrayVec<Load, MAX_TASKS>,
    holds: ArrayVec<Hold, MAX_SECTIONS>,
    ghost loads_are: { loads.items ≡ loads_of (of given.roster.now) given.set.now },
    ghost holds_are: { holds.items ≡ holds_of (of given.roster.now) given.set.now },
}

impl<'a> Analysis<'a> {
    // The analysis of the set that a list stands for.
    pub(crate) fn new(roster: &'a Roster, list: &'a [u8]) -> Result<Analysis<'a>, CallRefusal>
        ensures { MatchResult result
            (λ a. (a.given.roster.now ≡ roster.now) × (a.given.set.now ≡ front (of roster.now) list.now))
            (First call_number (SetRule (of roster.now) list.now)) }
    {
        let given = Assignment::new(roster, list)?;
        let loads = given.loads();
        let holds = given.holds();
        Ok(Analysis {
            given,
            loads,
            holds,
        })
    }

    // What the task at a place asks of the processor. A place is asked for as an index is, by a `requires`.
    fn demand(&self, place: usize) -> Demand<'_>
        requires { place < length (of self.now.given.roster.now).tasks }
        ensures own { result.own ≡ own (of self.now.given.roster.now) self.now.given.set.now place }
        ensures urgent { result.urgent.now
            ≡ take place (loads_of (of self.now.given.roster.now) self.now.given.set.now) }
    {
        let priority = self.given.roster.tasks()[place].priority;
        Demand {
            own: self.loads[place].time + blocking(&self.holds, priority),
            urgent: &self.loads[..place],
        }
    }

    // The window of the task at a place, where it meets the deadline.
    pub(crate) fn window(&self, place: usize) -> Option<u64>
        requires { place < length (of self.now.given.roster.now).tasks }
        ensures { Judged (demand_at (of self.now.given.roster.now) self.now.given.set.now place)
            (task (of self.now.given.roster.now) place).jitter
            (task (of self.now.given.roster.now) place).deadline
            result }
    {
        let task = self.given.roster.tasks()[place];
        self.demand(place)
            .window(u64::from(task.jitter), u64::from(task.deadline))
    }

    pub(crate) fn all_meet(&self) -> bool
        ensures { Decides result (AllMeet (of self.now.given.roster.now) self.now.given.set.now) }
    {
        (0..self.given.roster.tasks().len()).all(|place| self.window(place).is_some())
    }
}
