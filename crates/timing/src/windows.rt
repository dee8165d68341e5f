// The windows of a roster's tasks under a set of steps.
ghost use Rattle.std.specs.Prelude.{◌≡◌, Decides, MatchResult};
ghost use Rattle.model.specs.Of.{of};
ghost use Rattle.model.specs.Refusals.{call_number, AllKept, First};
ghost use Rattle.timing.specs.Times.{front};
ghost use Rattle.timing.specs.Windows.{WindowsRule, Filled, Responds};

use crate::analysis::Analysis;
use model::refusals::CallRefusal;
use model::roster::Roster;

// Writes the window of each task, 0 for one that misses its deadline.
pub fn windows(roster: &Roster, set: &[u8], out: &mut [u32]) -> Result<(), CallRefusal>
    ensures { MatchResult result
        (λ _. AllKept (WindowsRule (of roster.now) set.now out.old) × Filled (of roster.now) set.now out.old out.new)
        (λ e. First call_number (WindowsRule (of roster.now) set.now out.old) e × (out.new ≡ out.old)) }
{
    let tasks = roster.tasks().len();
    if out.len() < tasks {
        return Err(CallRefusal::ShortList);
    }
    let analysis = Analysis::new(roster, set)?;
    // A rule of the project: the caller lends the list, and a miss is written as 0.
    // A window that is met fits 32 bits: `try_from` would add an arm that never runs.
    for (place, window) in out[..tasks].iter_mut().enumerate() {
        *window = analysis.window(place).unwrap_or(0) as u32;
    }
    Ok(())
}

// Whether a list stands for a set under which every task meets its deadline.
pub fn all_meet(roster: &Roster, list: &[u8]) -> bool
    ensures { Decides result (Responds (of roster.now) (front (of roster.now) list.now)) }
{
    Analysis::new(roster, list).is_ok_and(|analysis| analysis.all_meet())
}
