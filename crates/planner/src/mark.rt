// How far a search has come.
ghost use Rattle.std.specs.Prelude.{Some};
ghost use Rattle.planner.specs.Printed.{mark_words};

use std::fmt;

#[derive(Clone, Copy, PartialEq, Eq, Debug)]
pub enum Mark {
    // sets are left to look at
    Open,
    // all sets are settled, and the one shown is the cheapest that passes
    Best,
    // all sets are settled, and none passes
    Nothing,
}

impl fmt::Display for Mark {
    ghost output = { λ mark. Some (mark_words mark) };

    fn fmt<W: fmt::Write>(&self, f: &mut fmt::Formatter<W>) -> fmt::Result {
        f.write_str(match self {
            Mark::Open => "open",
            Mark::Best => "best",
            Mark::Nothing => "none",
        })
    }
}
