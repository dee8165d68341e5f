// The response test: every task meets its deadline.
ghost use Rattle.timing.specs.Windows.{Responds};
ghost use Rattle.timing.proofs.Faster.{responds_faster};

use crate::test::Test;
use model::roster::Roster;
use timing::windows::all_meet;

#[derive(Clone, Copy, PartialEq, Eq, Debug, Default)]
pub struct Response;

impl Test for Response {
    ghost passes = { λ _ s set. Responds s set };

    ghost lawful = { record {
      sets = λ _ _ _ passes. passes.isset;
      faster = λ _. responds_faster;
    } };

    fn ask(&self, roster: &Roster, list: &[u8]) -> bool {
        all_meet(roster, list)
    }
}
