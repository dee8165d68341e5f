// A test that counts the floors in.
ghost use Rattle.std.specs.Prelude.{Decides};
ghost use Rattle.model.specs.Of.{of};
ghost use Rattle.schedulability.specs.Floors.{Allowed, WithinFloors};
ghost use Rattle.timing.specs.Times.{front};
ghost use Rattle.schedulability.specs.Floorings.{floors_faster};

use crate::test::Test;
use model::kinds::Task;
use model::roster::Roster;

// Says yes when no step exceeds its task's floor and the test below says yes.
#[derive(Clone, Copy, PartialEq, Eq, Debug, Default)]
pub struct Floored<T> {
    pub below: T,
}

fn allowed(task: &Task, step: u8) -> bool
    ensures { Decides result (Allowed (task.now, step)) }
{
    task.floor.is_none_or(|floor| u32::from(step) <= floor)
}

fn within_floors(roster: &Roster, list: &[u8]) -> bool
    ensures { Decides result (WithinFloors (of roster.now) (front (of roster.now) list.now)) }
{
    roster
        .tasks()
        .iter()
        .zip(list)
        .all(|(task, step)| allowed(task, *step))
}

impl<T: Test> Test for Floored<T> {
    ghost passes = { λ t s set. WithinFloors s set × T.Test.passes t.below s set };

    ghost lawful = { let below = T.Test.lawful in
        record {
          sets = λ t s set passes. below.sets t.below s set passes.1;
          faster = λ t s fast slow k faster passes.
              (floors_faster s.tasks fast slow faster passes.0, below.faster t.below s fast slow k faster passes.1);
        } };

    fn ask(&self, roster: &Roster, list: &[u8]) -> bool {
        within_floors(roster, list) && self.below.ask(roster, list)
    }
}
