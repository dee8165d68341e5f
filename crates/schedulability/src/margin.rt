// A test under a margin.
ghost use Rattle.model.specs.Growth.{Grows, grown, margin as margin_of};
ghost use Rattle.model.proofs.Growing.{keeps_grown};
ghost use Rattle.schedulability.specs.Growths.{isset_grown};

use crate::test::Test;
use model::roster::Roster;

// Asks the test below about the roster with every number of cycles grown by some percent, at most 100.
#[derive(Clone, Copy, PartialEq, Eq, Debug, Default)]
pub struct Margin<T> {
    pub percent: u32,
    pub below: T,
}

impl<T: Test> Test for Margin<T> {
    // no number of cycles passes its bound, and the grown roster passes the test below
    ghost passes = { λ t s set. Grows (margin_of t.percent) s × T.Test.passes t.below (grown (margin_of t.percent) s) set };

    ghost lawful = { let below = T.Test.lawful in
        record {
          sets = λ t s set passes. isset_grown (margin_of t.percent) s set (below.sets t.below (grown (margin_of t.percent) s) set passes.1);
          faster = λ t s fast slow k faster passes.
              (passes.0, below.faster t.below (grown (margin_of t.percent) s) fast slow (keeps_grown (margin_of t.percent) s k passes.0) faster passes.1);
        } };

    fn ask(&self, roster: &Roster, list: &[u8]) -> bool {
        roster
            .grown(self.percent)
            .as_ref()
            .is_some_and(|grown| self.below.ask(grown, list))
    }
}
