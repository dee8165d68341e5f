// Lists as sets, and times at their steps.
ghost use Rattle.std.specs.Prelude.{◌≡◌, ◌<◌, length, if◌then◌else◌, Some, None, Decides, nat_lt};
ghost use Rattle.model.specs.Of.{of};
ghost use Rattle.timing.specs.Times.{IsSet, clock, front, time};

use crate::assignment::Assignment;
use model::roster::Roster;

// Whether a list stands for a set of the roster.
pub fn is_set(roster: &Roster, list: &[u8]) -> bool
    ensures { Decides result (IsSet (of roster.now) (front (of roster.now) list.now)) }
{
    Assignment::new(roster, list).is_ok()
}

// The time of so many cycles at a step.
pub(crate) fn time_at(roster: &Roster, cycles: u32, step: u8) -> u64
    requires { step < length (of roster.now).steps }
    ensures { result ≡ time cycles (clock (of roster.now) step) }
{
    let clock = roster.steps()[usize::from(step)].clock;
    (u64::from(cycles) * 1000).div_ceil(u64::from(clock))
}

// The time of so many cycles at a step, where the table has it.
pub fn time_of(roster: &Roster, cycles: u32, step: u8) -> Option<u64>
    ensures { result ≡ (if nat_lt step (length (of roster.now).steps) then Some (time cycles (clock (of roster.now) step)) else None) }
{
    (usize::from(step) < roster.steps().len()).then(|| time_at(roster, cycles, step))
}
