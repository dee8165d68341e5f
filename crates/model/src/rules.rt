// Each rule of a roster as a question. The first that is broken, in the order of their numbers, refuses a call.
ghost use Rattle.std.specs.Prelude.{◌≡◌, true, is_some, Decides};
ghost use Rattle.std.specs.List.{AllByRecursion};
ghost use Rattle.model.specs.Lists.{Pairwise};
ghost use Rattle.model.specs.Records.{InRange, Above, TaskBounded, Ordered, FloorFits, SectionBounded, Within, TakesIn};
ghost use Rattle.model.specs.System.{section_at};

use crate::kinds::{Section, Step, Task};

const MIN_CLOCK: u32 = 1_000;

const MAX_CLOCK: u32 = 2_000_000;

const MAX_VOLTAGE: u32 = 500;

pub(crate) const MAX_SWITCH: u32 = 1_000_000;

const MAX_PERIOD: u32 = 100_000_000;

pub(crate) const MAX_CYCLES: u32 = 100_000_000;

pub(crate) const MAX_PRIORITY: u32 = 255;

pub(crate) const MAX_RESOURCE: u32 = 7;

fn in_range(step: &Step) -> bool
    ensures { Decides result (InRange step.now) }
{
    (MIN_CLOCK..=MAX_CLOCK).contains(&step.clock) && (1..=MAX_VOLTAGE).contains(&step.voltage)
}

pub(crate) fn all_in_range(steps: &[Step]) -> bool
    ensures { Decides result (AllByRecursion InRange steps.now) }
{
    steps.iter().all(in_range)
}

fn above(earlier: &Step, later: &Step) -> bool
    ensures { Decides result (Above earlier.now later.now) }
{
    later.clock < earlier.clock && later.voltage <= earlier.voltage
}

pub(crate) fn falling(steps: &[Step]) -> bool
    ensures { Decides result (Pairwise Above steps.now) }
{
    steps.is_sorted_by(above)
}

pub(crate) fn task_bounded(task: &Task) -> bool
    ensures { Decides result (TaskBounded task.now) }
{
    task.priority <= MAX_PRIORITY
        && (1..=MAX_CYCLES).contains(&task.cycles)
        && (1..=MAX_PERIOD).contains(&task.period)
        && task.deadline >= 1
}

pub(crate) fn ordered(task: &Task) -> bool
    ensures { Decides result (Ordered task.now) }
{
    task.deadline <= task.period && task.jitter <= task.deadline
}

pub(crate) fn floor_fits(task: &Task, steps: usize) -> bool
    ensures { Decides result (FloorFits steps task.now) }
{
    // std has no `From` for a u32 as usize
    task.floor.is_none_or(|floor| (floor as usize) < steps)
}

pub(crate) fn section_bounded(section: &Section) -> bool
    ensures { Decides result (SectionBounded section.now) }
{
    section.owner <= MAX_PRIORITY && section.resource <= MAX_RESOURCE && section.cycles >= 1
}

pub(crate) fn within(section: &Section, task: &Task) -> bool
    ensures { Decides result (Within section.now task.now) }
{
    section.cycles <= task.cycles
}

// Whether every section of the task's priority is within the task.
pub(crate) fn holds_sections(task: &Task, sections: &[Section]) -> bool
    ensures { Decides result (AllByRecursion (TakesIn task.now) sections.now) }
{
    sections.iter().all(|section| section.owner != task.priority || within(section, task))
}

pub(crate) fn section_stands(sections: &[Section], owner: u32, resource: u32) -> bool
    ensures { result ≡ is_some (section_at owner resource sections.now) }
{
    sections.iter().any(|section| section.owner == owner && section.resource == resource)
}
