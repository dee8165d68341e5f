// The density test: deadlines are met where the tasks together need no more than the whole processor.
ghost use Rattle.std.specs.Prelude.{◌≡◌, ◌<◌, length, Decides};
ghost use Rattle.std.specs.List.{AllByRecursion};
ghost use Rattle.model.specs.Of.{of};
ghost use Rattle.model.specs.Records.{TaskBounded};
ghost use Rattle.schedulability.specs.Density.{Sparse, Steady, density as density_of, part as part_of};
ghost use Rattle.timing.specs.Times.{IsSet, front};
ghost use Rattle.schedulability.specs.Parts.{sparse_faster};

use crate::test::Test;
use model::kinds::Task;
use model::roster::Roster;
use timing::sets::{is_set, time_of};

const WHOLE: u64 = 1_000_000_000;

#[derive(Clone, Copy, PartialEq, Eq, Debug, Default)]
pub struct Density;

fn steady(tasks: &[Task]) -> bool
    ensures { Decides result (AllByRecursion Steady tasks.now) }
{
    tasks.iter().all(|task| task.jitter == 0)
}

// The part of the processor that a task needs at a step.
fn part(roster: &Roster, task: &Task, step: u8) -> u64
    requires bounded { TaskBounded task.now }
    requires named { step < length (of roster.now).steps }
    ensures { result ≡ part_of (of roster.now) (task.now, step) }
{
    let time = time_of(roster, task.cycles, step).unwrap();
    let scaled = (time + u64::from(roster.switch_time())) * WHOLE;
    scaled.div_ceil(u64::from(task.deadline))
}

// What all tasks need together.
fn needed(roster: &Roster, set: &[u8]) -> u64
    requires { IsSet (of roster.now) (front (of roster.now) set.now) }
    ensures { result ≡ density_of (of roster.now) (front (of roster.now) set.now) }
{
    let pairs = roster.tasks().iter().zip(set);
    pairs.map(|(task, step)| part(roster, task, *step)).sum()
}

impl Test for Density {
    ghost passes = { λ _ s set. Sparse s set };

    ghost lawful = { record {
      sets = λ _ _ _ passes. passes.isset;
      faster = λ _. sparse_faster;
    } };

    fn ask(&self, roster: &Roster, list: &[u8]) -> bool {
        is_set(roster, list)
            && steady(roster.tasks())
            && roster.sections().is_empty()
            && needed(roster, list) <= WHOLE
    }
}
