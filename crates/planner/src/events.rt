// The calls that change a planner, and what happens when they are made.
ghost use Rattle.std.specs.Prelude.{Some};
ghost use Rattle.planner.specs.Printed.{change_words};

use crate::mark::Mark;
use crate::refusals::SearchRefusal;
use model::kinds::{Section, Task};
use model::refusals::{Refusal, RosterRefusal};
use std::fmt;

// A change of the tasks and sections that stand.
#[derive(Clone, Copy, PartialEq, Eq, Debug)]
pub enum Change {
    Enter(Task),
    // rewrites the task of that priority
    Alter(Task),
    // by its priority
    Strike(u32),
    EnterSection(Section),
    // by its owner's priority and its resource
    StrikeSection(u32, u32),
}

impl fmt::Display for Change {
    ghost output = { λ change. Some (change_words change) };

    fn fmt<W: fmt::Write>(&self, f: &mut fmt::Formatter<W>) -> fmt::Result {
        f.write_str(match self {
            Change::Enter(_) => "enter a task",
            Change::Alter(_) => "alter a task",
            Change::Strike(_) => "strike a task",
            Change::EnterSection(_) => "enter a section",
            Change::StrikeSection(_, _) => "strike a section",
        })
    }
}

#[derive(Clone, Copy, PartialEq, Eq, Debug)]
pub enum Call {
    Change(Change),
    // with its allowance
    Plan(u32),
}

// What an accepted plan call answers.
#[derive(Clone, Copy, PartialEq, Eq, Debug)]
pub struct Progress {
    pub mark: Mark,
    // the sets numbered below this are settled
    pub settled: u64,
    // how many sets were looked at
    pub strides: u32,
}

// A call with its answer.
#[derive(PartialEq, Eq, Debug, Drop)]
pub enum Event {
    Changed(Change, Result<(), RosterRefusal>),
    Planned(u32, Result<Progress, SearchRefusal>),
}

// A refusal printed with its number.
#[derive(Drop)]
struct Numbered<E>(E);

impl<E: Refusal + fmt::Display> fmt::Display for Numbered<E> {
    fn fmt<W: fmt::Write>(&self, f: &mut fmt::Formatter<W>) -> fmt::Result {
        write!(f, "refusal {}, {}", self.0.number(), self.0)
    }
}

impl fmt::Display for Event {
    fn fmt<W: fmt::Write>(&self, f: &mut fmt::Formatter<W>) -> fmt::Result {
        match self {
            Event::Changed(change, Ok(())) => write!(f, "{change}: accepted"),
            Event::Changed(change, Err(refusal)) => write!(f, "{change}: {}", Numbered(*refusal)),
            Event::Planned(allowance, Ok(progress)) => {
                write!(f, "plan {allowance}: strides {}", progress.strides)
            }
            Event::Planned(allowance, Err(refusal)) => {
                write!(f, "plan {allowance}: {}", Numbered(*refusal))
            }
        }
    }
}
