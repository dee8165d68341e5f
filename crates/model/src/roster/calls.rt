// The calls of a roster. A refused call changes nothing.
ghost use Rattle.std.specs.Prelude.{◌≡◌};
ghost use Rattle.model.specs.Calls.{LoadRule, loaded, EnterRule, entered, AlterRule, altered, StrikeRule, struck, SectionRule, section_entered, SectionStrikeRule, section_struck};
ghost use Rattle.model.specs.Of.{of};
ghost use Rattle.model.specs.Refusals.{steps_number, roster_number, AllKept, Outcome};
ghost use Rattle.model.specs.System.{new_system};

use super::Roster;
use super::judges::judge_table;
use crate::kinds::{Section, Step, Task};
use crate::lookup::{find, rank};
use crate::refusals::{RosterRefusal, StepsRefusal};
use crate::table::Table;

const SLOWEST: Step = Step {
    clock: 1_000,
    voltage: 1,
};

impl Roster {
    // A step table, and neither task nor section.
    fn bare(steps: &[Step], switch: u32) -> Roster
        requires { AllKept (LoadRule steps.now switch) }
        ensures { of result ≡ loaded steps.now switch }
    {
        Roster {
            steps: Table::from_slice(steps),
            switch,
            tasks: Table::empty(),
            sections: Table::empty(),
        }
    }

    // One step of the slowest clock and the lowest voltage, and no task.
    pub fn new() -> Roster
        ensures { of result ≡ new_system }
    {
        Roster::bare(&[SLOWEST], 0)
    }

    pub fn steps(&self) -> &[Step]
        ensures { result.now ≡ (of self.now).steps }
    {
        self.steps.as_slice()
    }

    pub fn switch_time(&self) -> u32
        ensures { result ≡ (of self.now).switch }
    {
        self.switch
    }

    // In priority order.
    pub fn tasks(&self) -> &[Task]
        ensures { result.now ≡ (of self.now).tasks }
    {
        self.tasks.as_slice()
    }

    // In the order in which they were entered.
    pub fn sections(&self) -> &[Section]
        ensures { result.now ≡ (of self.now).sections }
    {
        self.sections.as_slice()
    }

    // Replaces the step table, and removes all tasks and sections.
    pub fn load(&mut self, steps: &[Step], switch: u32) -> Result<(), StepsRefusal>
        ensures { Outcome steps_number (LoadRule steps.now switch) (of self.old) (loaded steps.now switch) (of self.new) result }
    {
        judge_table(steps, switch)?;
        *self = Roster::bare(steps, switch);
        Ok(())
    }

    pub fn enter(&mut self, task: Task) -> Result<(), RosterRefusal>
        ensures { Outcome roster_number (EnterRule (of self.old) task) (of self.old) (entered (of self.old) task) (of self.new) result }
    {
        self.judge_entry(&task)?;
        let at = rank(self.tasks(), task.priority);
        self.tasks.insert(at, task);
        Ok(())
    }

    // Rewrites the task of that priority, and no other.
    pub fn alter(&mut self, task: Task) -> Result<(), RosterRefusal>
        ensures { Outcome roster_number (AlterRule (of self.old) task) (of self.old) (altered (of self.old) task) (of self.new) result }
    {
        self.judge_alteration(&task)?;
        if let Some(at) = find(self.tasks(), task.priority) {
            self.tasks.alter(at, task);
        }
        Ok(())
    }

    // Removes a task with its sections.
    pub fn strike(&mut self, priority: u32) -> Result<(), RosterRefusal>
        ensures { Outcome roster_number (StrikeRule (of self.old) priority) (of self.old) (struck (of self.old) priority) (of self.new) result }
    {
        self.judge_striking(priority)?;
        self.tasks.retain(|task| task.priority != priority);
        self.sections.retain(|section| section.owner != priority);
        Ok(())
    }

    pub fn enter_section(&mut self, section: Section) -> Result<(), RosterRefusal>
        ensures { Outcome roster_number (SectionRule (of self.old) section) (of self.old) (section_entered (of self.old) section) (of self.new) result }
    {
        self.judge_section(&section)?;
        self.sections.push(section);
        Ok(())
    }

    pub fn strike_section(&mut self, owner: u32, resource: u32) -> Result<(), RosterRefusal>
        ensures { Outcome roster_number (SectionStrikeRule (of self.old) owner resource) (of self.old) (section_struck (of self.old) owner resource) (of self.new) result }
    {
        self.judge_section_striking(owner, resource)?;
        self.sections.retain(|section| !(section.owner == owner && section.resource == resource));
        Ok(())
    }
}
