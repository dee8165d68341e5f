// The calls of a planner. A refused call changes nothing.
ghost use Rattle.std.specs.Prelude.{◌≡◌, List, []};
ghost use Rattle.model.specs.Of.{of};
ghost use Rattle.model.specs.Refusals.{Outcome, Verdict};
ghost use Rattle.planner.specs.Refusals.{search_number};
ghost use Rattle.model.specs.System.{System};
ghost use Rattle.planner.specs.declared.events.Change.TheVariants.{Enter, Alter, Strike, EnterSection, StrikeSection};
ghost use Rattle.planner.specs.declared.events.Event.{Event as Happening};
ghost use Rattle.planner.specs.declared.events.Event.TheVariants.{Changed, Planned};
ghost use Rattle.planner.specs.Calls.{PlanRule, ShowRule, written, call_of};
ghost use Rattle.planner.specs.Claim.{Claim, Follows, Led, Named, Seen, told, told_by};
ghost use Rattle.planner.specs.State.{opened, InBounds};

use super::Planner;
use super::search::{apply, first_set};
use crate::events::{Call, Change, Event, Progress};
use crate::findings::Findings;
use crate::refusals::SearchRefusal;
use model::kinds::{Section, Task};
use model::refusals::RosterRefusal;
use model::roster::Roster;
use schedulability::floors::Floored;
use schedulability::test::Test;
use tariffs::tariff::Tariff;

// The most strides that one plan call may be allowed.
const MAX_ALLOWANCE: u32 = 1_000_000;

fn judge_allowance(allowance: u32) -> Result<(), SearchRefusal>
    ensures { Verdict search_number (PlanRule allowance) result }
{
    if (1..=MAX_ALLOWANCE).contains(&allowance) {
        Ok(())
    } else {
        Err(SearchRefusal::Allowance)
    }
}

impl<Q: Test, C: Tariff> Planner<Q, C> {
    // Takes the roster and the test over; the tariff is a type.
    pub fn open(roster: Roster, test: Q) -> Planner<Q, C>
        ensures state { result ≡ opened (of roster) test }
        ensures led { Led Q.Test C.Tariff (of roster) test [] result }
        ensures bounds { InBounds result }
    {
        Planner {
            roster,
            test: Floored { below: test },
            sets: first_set(&roster),
            shown: None,
        }
    }

    pub fn enter(&mut self, task: Task) -> Result<(), RosterRefusal>
        ensures { Follows Q.Test C.Tariff self.old (Changed (Enter task) result) self.new }
    {
        self.change(Change::Enter(task))
    }

    // Rewrites the task of that priority, and no other.
    pub fn alter(&mut self, task: Task) -> Result<(), RosterRefusal>
        ensures { Follows Q.Test C.Tariff self.old (Changed (Alter task) result) self.new }
    {
        self.change(Change::Alter(task))
    }

    // Removes a task with its sections.
    pub fn strike(&mut self, priority: u32) -> Result<(), RosterRefusal>
        ensures { Follows Q.Test C.Tariff self.old (Changed (Strike priority) result) self.new }
    {
        self.change(Change::Strike(priority))
    }

    pub fn enter_section(&mut self, section: Section) -> Result<(), RosterRefusal>
        ensures { Follows Q.Test C.Tariff self.old (Changed (EnterSection section) result) self.new }
    {
        self.change(Change::EnterSection(section))
    }

    pub fn strike_section(&mut self, owner: u32, resource: u32) -> Result<(), RosterRefusal>
        ensures { Follows Q.Test C.Tariff self.old (Changed (StrikeSection owner resource) result) self.new }
    {
        self.change(Change::StrikeSection(owner, resource))
    }

    // An accepted change starts the search again.
    pub fn change(&mut self, change: Change) -> Result<(), RosterRefusal>
        ensures { Follows Q.Test C.Tariff self.old (Changed change result) self.new }
    {
        apply(&mut self.roster, change)?;
        self.sets = first_set(&self.roster);
        self.shown = None;
        Ok(())
    }

    // Goes on with the search, by at most so many strides as allowed.
    pub fn plan(&mut self, allowance: u32) -> Result<Progress, SearchRefusal>
        ensures { Follows Q.Test C.Tariff self.old (Planned allowance result) self.new }
    {
        // The planner is opened to the proof, since what holds of it is promised on a refusal too.
        let _ = &self.roster;
        judge_allowance(allowance)?;
        let strides = self.walk(allowance);
        Ok(self.progress(strides))
    }

    // Carries out a call as the program has it at hand.
    pub fn carry_out(&mut self, call: Call) -> Event
        ensures call { call_of result ≡ call }
        ensures follows { Follows Q.Test C.Tariff self.old result self.new }
    {
        match call {
            Call::Change(change) => Event::Changed(change, self.change(change)),
            Call::Plan(allowance) => Event::Planned(allowance, self.plan(allowance)),
        }
    }

    // Writes the steps of the shown set into a list, one for each task.
    pub fn show(&self, list: &mut [u8]) -> Result<(), SearchRefusal>
        ensures outcome { Outcome search_number (ShowRule self.now list.old) list.old (written self.now.stands self.now.search.shown list.old) list.new result }
        ensures claim { (opening : System) (test : Q) (events : List Happening) → Led Q.Test C.Tariff opening test events self.now → Seen Q.Test C.Tariff opening test events list.new result }
        ensures bounds { InBounds self.now }
    {
        let tasks = self.roster.tasks().len();
        if list.len() < tasks {
            return Err(SearchRefusal::ShortList);
        }
        let Some(shown) = &self.shown else {
            return Err(SearchRefusal::NothingShown);
        };
        list[..tasks].copy_from_slice(shown.steps());
        Ok(())
    }
}

impl<Q: Test + Drop, C: Tariff> Planner<Q, C> {
    // Uses the planner up.
    pub fn close(self) -> Findings<C>
        ensures told { told_by result ≡ told self }
        ensures steps { Named self.stands result }
        ensures claim { (opening : System) (test : Q) (events : List Happening) → Led Q.Test C.Tariff opening test events self → Claim Q.Test C.Tariff opening test events (told_by result) }
        ensures bounds { InBounds self }
    {
        self.findings()
    }
}
