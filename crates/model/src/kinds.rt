// The records of a roster as they are given: any number that the types hold, judged by the roster alone.
ghost use Rattle.std.specs.Prelude.{◌≡◌};
ghost use Rattle.model.specs.Rewrite.{rewritten};

pub const MAX_STEPS: usize = 8;

pub const MAX_TASKS: usize = 16;

pub const MAX_SECTIONS: usize = 32;

// A clock step: its clock in kHz, and the voltage it needs in centivolts.
#[derive(Clone, Copy, PartialEq, Eq, Default, Debug)]
pub struct Step {
    pub clock: u32,
    pub voltage: u32,
}

// A periodic task. Times are in microseconds, and a smaller priority number is more urgent.
#[derive(Clone, Copy, PartialEq, Eq, Default, Debug)]
pub struct Task {
    pub priority: u32,
    pub cycles: u32,
    pub period: u32,
    pub deadline: u32,
    // how late a release may be
    pub jitter: u32,
    // the slowest step allowed
    pub floor: Option<u32>,
}

// A stretch of a task that holds a resource; the owner is named by its priority.
#[derive(Clone, Copy, PartialEq, Eq, Default, Debug)]
pub struct Section {
    pub owner: u32,
    pub resource: u32,
    pub cycles: u32,
}

impl Task {
    // Takes over every number of `new` but the priority.
    pub fn rewrite(&mut self, new: Task)
        ensures { self.new ≡ rewritten new self.old }
    {
        *self = Task {
            priority: self.priority,
            ..new
        };
    }
}
