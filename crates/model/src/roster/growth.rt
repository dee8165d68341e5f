// A copy of a roster in which every number of cycles has a margin.
ghost use Rattle.std.specs.Prelude.{◌≡◌, MatchOption};
ghost use Rattle.model.specs.Fitting.{fitting_cycles};
ghost use Rattle.model.specs.Growth.{margin, grown, Grows};
ghost use Rattle.model.specs.Of.{of};

use super::Roster;
use crate::kinds::{Section, Task};
use crate::rules::MAX_CYCLES;

// A margin in percent; one above this is taken as this.
const MAX_MARGIN: u32 = 100;

// The cycles with their margin, where they stay within their bound.
fn grown_cycles(cycles: u32, percent: u32) -> Option<u32>
    ensures { result ≡ fitting_cycles (margin percent) cycles }
{
    let parts = u64::from(100 + percent.min(MAX_MARGIN));
    let grown = (u64::from(cycles) * parts).div_ceil(100);
    u32::try_from(grown)
        .ok()
        .filter(|grown| *grown <= MAX_CYCLES)
}

impl Roster {
    // The copy, or nothing where some cycles would pass their bound.
    pub fn grown(&self, percent: u32) -> Option<Roster>
        ensures { MatchOption result (Grows (margin percent) (of self.now) → ⊥) (λ g. Grows (margin percent) (of self.now) × (of g ≡ grown (margin percent) (of self.now))) }
    {
        let tasks = self.tasks.try_map(|task| {
            let cycles = grown_cycles(task.cycles, percent)?;
            Some(Task { cycles, ..task })
        })?;
        let sections = self.sections.try_map(|section| {
            let cycles = grown_cycles(section.cycles, percent)?;
            Some(Section { cycles, ..section })
        })?;
        Some(Roster {
            steps: self.steps,
            switch: self.switch,
            tasks,
            sections,
        })
    }
}
