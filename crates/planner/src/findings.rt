// What a planner tells.
ghost use Rattle.std.specs.Prelude.{◌≡◌};
ghost use Rattle.planner.specs.Shown.{number_of, steps_of};

use crate::mark::Mark;
use odometer::wheels::Odometer;
use std::fmt;

// A set with its charge.
// No model: no plainer, since a Copy type's value has to give all fields back, and so would be the fields again.
#[derive(Clone, Copy, PartialEq, Eq, Debug)]
pub struct Shown<C> {
    // the odometer as it stood at the set
    pub(crate) at: Odometer,
    pub charge: C,
}

impl<C> Shown<C> {
    pub fn number(&self) -> u64
        ensures { result ≡ number_of self.now }
    {
        self.at.number()
    }

    // A step for each task, in priority order.
    pub fn steps(&self) -> &[u8]
        ensures { result.now ≡ steps_of self.now }
    {
        self.at.digits()
    }
}

impl<C: fmt::Display> fmt::Display for Shown<C> {
    fn fmt<W: fmt::Write>(&self, f: &mut fmt::Formatter<W>) -> fmt::Result {
        write!(f, "set {}, steps", self.number())?;
        for step in self.steps() {
            write!(f, " {step}")?;
        }
        write!(f, ", charge {}", self.charge)
    }
}

#[derive(Clone, Copy, PartialEq, Eq, Debug)]
pub struct Findings<C> {
    pub mark: Mark,
    // the sets numbered below this are settled
    pub settled: u64,
    pub shown: Option<Shown<C>>,
}

impl<C: fmt::Display> fmt::Display for Findings<C> {
    fn fmt<W: fmt::Write>(&self, f: &mut fmt::Formatter<W>) -> fmt::Result {
        write!(f, "{}, settled {}; ", self.mark, self.settled)?;
        match &self.shown {
            Some(shown) => write!(f, "{shown}"),
            None => f.write_str("nothing shown"),
        }
    }
}
