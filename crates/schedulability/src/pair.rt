// Two tests at once.
ghost use Rattle.std.proofs.Common.{rules};

use crate::test::Test;
use model::roster::Roster;

// Says yes when both tests do. Not the pair of tariffs: tests and tariffs know nothing of each other.
#[derive(Clone, Copy, PartialEq, Eq, Debug, Default)]
pub struct Pair<A, B> {
    pub first: A,
    pub second: B,
}

impl<A: Test, B: Test> Test for Pair<A, B> {
    ghost passes = { λ t s set. A.Test.passes t.first s set × B.Test.passes t.second s set };

    ghost lawful = { Prim.search rules };

    fn ask(&self, roster: &Roster, list: &[u8]) -> bool {
        self.first.ask(roster, list) && self.second.ask(roster, list)
    }
}
