// What each call would be refused for: the rules in the order of their numbers.
ghost use Rattle.std.specs.Prelude.{◌≡◌, is_some, Decides, MatchResult};
ghost use Rattle.model.specs.Calls.{LoadRule, TaskRule, EnterRule, AlterRule, StrikeRule, SectionRule, SectionStrikeRule};
ghost use Rattle.model.specs.declared.refusals.RosterRefusal.TheVariants.{Overlong};
ghost use Rattle.model.specs.Of.{of};
ghost use Rattle.model.specs.Records.{TaskBounded, Ordered, FloorFits};
ghost use Rattle.model.specs.Refusals.{steps_number, roster_number, First, Verdict};
ghost use Rattle.model.specs.System.{task_at};

use super::Roster;
use crate::kinds::{MAX_SECTIONS, MAX_STEPS, MAX_TASKS, Section, Step, Task};
use crate::lookup::find;
use crate::refusals::{RosterRefusal, StepsRefusal};
use crate::rules;

// Steps and switch time come as `load` is given them: as one value they would be taken apart again at once.
pub(crate) fn judge_table(steps: &[Step], switch: u32) -> Result<(), StepsRefusal>
    ensures { Verdict steps_number (LoadRule steps.now switch) result }
{
    if steps.is_empty() || steps.len() > MAX_STEPS {
        return Err(StepsRefusal::Count);
    }
    if !rules::all_in_range(steps) || switch > rules::MAX_SWITCH {
        return Err(StepsRefusal::Range);
    }
    if !rules::falling(steps) {
        return Err(StepsRefusal::Falling);
    }
    Ok(())
}

// What a task is refused for on a table of that many steps, before the roster is looked at.
fn judge_task(task: &Task, steps: usize) -> Result<(), RosterRefusal>
    ensures { MatchResult result (λ _. TaskBounded task.now × Ordered task.now × FloorFits steps task.now) (First roster_number (TaskRule steps task.now)) }
{
    if !rules::task_bounded(task) {
        return Err(RosterRefusal::Bound);
    }
    if !rules::ordered(task) {
        return Err(RosterRefusal::Deadline);
    }
    if !rules::floor_fits(task, steps) {
        return Err(RosterRefusal::Floor);
    }
    Ok(())
}

impl Roster {
    // Whether a task of that priority stands.
    fn stands(&self, priority: u32) -> bool
        ensures { result ≡ is_some (task_at priority (of self.now).tasks) }
    {
        find(self.tasks.as_slice(), priority).is_some()
    }

    // Whether the section is within its owner, where that stands.
    fn has_room(&self, section: &Section) -> bool
        ensures { Decides result (SectionRule (of self.now) section.now Overlong) }
    {
        let tasks = self.tasks.as_slice();
        find(tasks, section.owner).is_none_or(|at| rules::within(section, &tasks[at]))
    }

    pub(crate) fn judge_entry(&self, task: &Task) -> Result<(), RosterRefusal>
        ensures { Verdict roster_number (EnterRule (of self.now) task.now) result }
    {
        judge_task(task, self.steps.as_slice().len())?;
        if self.stands(task.priority) {
            return Err(RosterRefusal::Taken);
        }
        if self.tasks.as_slice().len() >= MAX_TASKS {
            return Err(RosterRefusal::TasksFull);
        }
        Ok(())
    }

    pub(crate) fn judge_alteration(&self, task: &Task) -> Result<(), RosterRefusal>
        ensures { Verdict roster_number (AlterRule (of self.now) task.now) result }
    {
        judge_task(task, self.steps.as_slice().len())?;
        if !self.stands(task.priority) {
            return Err(RosterRefusal::Absent);
        }
        if !rules::holds_sections(task, self.sections.as_slice()) {
            return Err(RosterRefusal::Overlong);
        }
        Ok(())
    }

    pub(crate) fn judge_striking(&self, priority: u32) -> Result<(), RosterRefusal>
        ensures { Verdict roster_number (StrikeRule (of self.now) priority) result }
    {
        if priority > rules::MAX_PRIORITY {
            return Err(RosterRefusal::Bound);
        }
        if !self.stands(priority) {
            return Err(RosterRefusal::Absent);
        }
        Ok(())
    }

    pub(crate) fn judge_section(&self, section: &Section) -> Result<(), RosterRefusal>
        ensures { Verdict roster_number (SectionRule (of self.now) section.now) result }
    {
        if !rules::section_bounded(section) {
            return Err(RosterRefusal::Bound);
        }
        if !self.stands(section.owner) {
            return Err(RosterRefusal::Absent);
        }
        if !self.has_room(section) {
            return Err(RosterRefusal::Overlong);
        }
        if rules::section_stands(self.sections.as_slice(), section.owner, section.resource) {
            return Err(RosterRefusal::SectionTaken);
        }
        if self.sections.as_slice().len() >= MAX_SECTIONS {
            return Err(RosterRefusal::SectionsFull);
        }
        Ok(())
    }

    // Owner and resource come as the call is given them: as one value they would be taken apart again at once.
    pub(crate) fn judge_section_striking(
        &self,
        owner: u32,
        resource: u32,
    ) -> Result<(), RosterRefusal>
        ensures { Verdict roster_number (SectionStrikeRule (of self.now) owner resource) result }
    {
        if owner > rules::MAX_PRIORITY || resource > rules::MAX_RESOURCE {
            return Err(RosterRefusal::Bound);
        }
        if !self.stands(owner) {
            return Err(RosterRefusal::Absent);
        }
        if !rules::section_stands(self.sections.as_slice(), owner, resource) {
            return Err(RosterRefusal::SectionAbsent);
        }
        Ok(())
    }
}
