// Amounts that price a task at a step.
ghost use Rattle.std.specs.Prelude.{◌≡◌, ℕ, false, slice_get};
ghost use Rattle.std.specs.Option.{option_zip};
ghost use Rattle.model.specs.Of.{of};
ghost use Rattle.model.specs.System.{System, Keeps};
ghost use Rattle.tariffs.specs.Prices.{in_roster};

use crate::amount::Amount;
use model::kinds::{Step, Task};
use model::roster::Roster;

pub trait Tariff: Amount {
    // of the task at a place in priority order, at a step
    ghost priced: { System → ℕ → ℕ → Self };

    // A rule of the project: a task is priced by its place in a roster, at a step.
    fn price(roster: &Roster, place: usize, step: u8) -> Self
        ensures value { result ≡ priced (of roster.now) place step }
        ensures count { Self.Amount.within 1 result };

    ghost one: { (s : System) (i g : ℕ) → Keeps s → Self.Amount.within 1 (priced s i g) };

    ghost outside: { (s : System) (i g : ℕ) → in_roster s i g ≡ false → priced s i g ≡ Self.Amount.none };
}

// The task at a place in priority order, and a step; nothing where the roster lacks one of them.
// Energy and peak have this in common, while their joins, bounds and prices differ.
pub(crate) fn task_at_step(roster: &Roster, place: usize, step: u8) -> Option<(Task, Step)>
    ensures { result ≡ option_zip (slice_get (of roster.now).tasks place) (slice_get (of roster.now).steps step) }
{
    let task = roster.tasks().get(place)?;
    let step = roster.steps().get(usize::from(step))?;
    Some((*task, *step))
}
