// A small roster.
use model::kinds::{Step, Task};
use model::roster::Roster;

pub(crate) const STEPS: [Step; 2] = [
    Step {
        clock: 2_000,
        voltage: 20,
    },
    Step {
        clock: 1_000,
        voltage: 10,
    },
];

// A task of a priority that breaks no rule.
pub(crate) fn plain(priority: u32) -> Task {
    Task {
        priority,
        cycles: 10,
        period: 1_000,
        deadline: 500,
        jitter: 5,
        floor: Some(1),
    }
}

// Two steps, and the tasks 3 and 7.
pub(crate) fn small() -> Roster {
    let mut roster = Roster::new();
    let _ = roster.load(&STEPS, 0);
    let _ = roster.enter(plain(7));
    let _ = roster.enter(plain(3));
    roster
}
