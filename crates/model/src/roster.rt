// A step table with the tasks and sections that are to run on it.
ghost use Rattle.model.specs.Held.{held};
ghost use Rattle.model.specs.System.{Keeps, system};

use crate::kinds::{MAX_SECTIONS, MAX_STEPS, MAX_TASKS, Section, Step, Task};
use crate::table::Table;

pub mod calls;
mod growth;
mod judges;

// Contracts say `of self.now`. An `impl Model` was tried: Copy is refused without an `inverse`, and `of` forgets the unused
// places of a table, so that none can give every field back.
#[derive(Clone, Copy)]
pub struct Roster {
    steps: Table<Step, MAX_STEPS>,
    switch: u32,
    tasks: Table<Task, MAX_TASKS>,
    sections: Table<Section, MAX_SECTIONS>,
    ghost keeps: { ∥ Keeps (system (held steps) switch (held tasks) (held sections)) ∥₁ },
}
