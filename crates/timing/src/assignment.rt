// A roster with a step for each of its tasks, and what that makes of the roster.
ghost use Rattle.std.specs.Prelude.{◌≡◌, ◌<◌, true, length, is_some, slice_index, MatchResult};
ghost use Rattle.std.proofs.Props.{props};
ghost use Rattle.model.specs.Lookup.{rank};
ghost use Rattle.model.specs.Of.{of};
ghost use Rattle.model.specs.Refusals.{call_number, First};
ghost use Rattle.model.specs.System.{task_at};
ghost use Rattle.timing.specs.Times.{IsSet, front, loads as loads_of, holds as holds_of};
ghost use Rattle.timing.specs.Windows.{SetRule};

use crate::demand::Load;
use crate::holds::{Hold, ceilings};
use crate::sets::time_at;
use arrayvec::ArrayVec;
use model::kinds::{MAX_SECTIONS, MAX_TASKS};
use model::lookup::find;
use model::refusals::CallRefusal;
use model::roster::Roster;

#[derive(Drop)]
pub(crate) struct Assignment<'a> {
    pub(crate) roster: &'a Roster,
    // in priority order
    pub(crate) set: &'a [u8],
    ghost isset: { IsSet (of roster.now) set.now } by { Prim.hlevel props },
}

impl<'a> Assignment<'a> {
    // The set that a list stands for: its first places, one for each task.
    pub(crate) fn new(roster: &'a Roster, list: &'a [u8]) -> Result<Assignment<'a>, CallRefusal>
        ensures { MatchResult result
            (λ a. (a.roster.now ≡ roster.now) × (a.set.now ≡ front (of roster.now) list.now))
            (First call_number (SetRule (of roster.now) list.now)) }
    {
        let tasks = roster.tasks().len();
        if list.len() < tasks {
            return Err(CallRefusal::ShortList);
        }
        let set = &list[..tasks];
        let steps = roster.steps().len();
        if !set.iter().all(|step| usize::from(*step) < steps) {
            return Err(CallRefusal::NoSuchStep);
        }
        Ok(Assignment { roster, set })
    }

    // The step of the task of a priority.
    fn step_of(&self, priority: u32) -> u8
        requires { is_some (task_at priority (of self.now.roster.now).tasks) ≡ true }
        ensures value { result
            ≡ slice_index self.now.set.now (rank priority (of self.now.roster.now).tasks) }
        ensures named { result < length (of self.now.roster.now).steps }
    {
        let place = find(self.roster.tasks(), priority).unwrap();
        self.set[place]
    }

    // The load of each task.
    pub(crate) fn loads(&self) -> ArrayVec<Load, MAX_TASKS>
        ensures { result.items ≡ loads_of (of self.now.roster.now) self.now.set.now }
    {
        let switch = u64::from(self.roster.switch_time());
        let mut loads = ArrayVec::new();
        // `extend` is no plainer: it answers a Result, as what it is given may be too long, and `push` is proved to have room
        for (task, step) in self.roster.tasks().iter().zip(self.set) {
            let time = time_at(self.roster, task.cycles, *step);
            loads.push(Load {
                time,
                cost: time + switch,
                period: u64::from(task.period),
                jitter: u64::from(task.jitter),
            });
        }
        loads
    }

    // The hold of each section.
    pub(crate) fn holds(&self) -> ArrayVec<Hold, MAX_SECTIONS>
        ensures { result.items ≡ holds_of (of self.now.roster.now) self.now.set.now }
    {
        let ceilings = ceilings(self.roster.sections());
        let mut holds = ArrayVec::new();
        // `push` has room here too; and std has no `From` for a u32 as usize
        for section in self.roster.sections() {
            let step = self.step_of(section.owner);
            holds.push(Hold {
                owner: section.owner,
                ceiling: ceilings[section.resource as usize],
                time: time_at(self.roster, section.cycles, step),
            });
        }
        holds
    }
}
