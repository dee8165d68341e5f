// A sample for programs and tests: two tasks on a table of three steps.
#![tactic(auto)]

ghost use Rattle.std.specs.Prelude.{◌≡◌, IfOk, OnErr, MatchResult};
ghost use Rattle.model.specs.Of.{of};
ghost use Rattle.sample.specs.Sample.{free_system, shared_system, FreeKeeps, SharedKeeps};

use model::kinds::{Section, Step, Task};
use model::refusals::{Refusal, RosterRefusal, StepsRefusal};
use model::roster::Roster;

pub const STEPS: [Step; 3] = [
    Step {
        clock: 40_000,
        voltage: 180,
    },
    Step {
        clock: 20_000,
        voltage: 130,
    },
    Step {
        clock: 10_000,
        voltage: 100,
    },
];

pub const STROBE: Task = Task {
    priority: 1,
    cycles: 40_000,
    period: 5_000,
    deadline: 4_000,
    jitter: 0,
    floor: None,
};

pub const FEED: Task = Task {
    priority: 2,
    cycles: 80_000,
    period: 10_000,
    deadline: 10_000,
    jitter: 0,
    floor: None,
};

// The set that is the cheapest otherwise misses this deadline.
pub const SOONER: Task = Task {
    deadline: 7_999,
    ..FEED
};

// No roster takes it: its deadline is above its period.
pub const LATER: Task = Task {
    deadline: 10_001,
    ..FEED
};

pub fn section(owner: u32, resource: u32, cycles: u32) -> Section
    ensures { result ≡ record { owner = owner; resource = resource; cycles = cycles } }
{
    Section {
        owner,
        resource,
        cycles,
    }
}

// The two tasks on the three steps, without sections.
pub fn free<E: From<StepsRefusal> + From<RosterRefusal>>(
    strobe: Task,
    feed: Task,
) -> Result<Roster, E>
    ensures accepted { IfOk result (λ roster. of roster ≡ free_system strobe feed) }
    ensures refused { OnErr result (FreeKeeps strobe feed → ⊥) }
{
    let mut roster = Roster::new();
    roster.load(&STEPS, 0)?;
    roster.enter(strobe)?;
    roster.enter(feed)?;
    Ok(roster)
}

// Each task has a section on resource 0: the less urgent one may block the other.
pub fn shared<E: From<StepsRefusal> + From<RosterRefusal>>(
    strobe: Task,
    feed: Task,
) -> Result<Roster, E>
    ensures accepted { IfOk result (λ roster. of roster ≡ shared_system strobe feed) }
    ensures refused { OnErr result (SharedKeeps strobe feed → ⊥) }
{
    let mut roster = free::<E>(strobe, feed)?;
    roster.enter_section(section(1, 0, 8_000))?;
    roster.enter_section(section(2, 0, 10_000))?;
    Ok(roster)
}

// What a call answers as a number, 0 where it is accepted: tests compare the numbers that people and files see.
pub fn answer<T: Drop, E: Refusal + Drop>(outcome: Result<T, E>) -> u8
    ensures { MatchResult outcome (λ _. result ≡ 0) (λ e. result ≡ E.Refusal.number_of e) }
{
    outcome.err().map_or(0, |refusal| refusal.number())
}
