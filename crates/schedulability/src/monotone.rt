// What the two rules give whoever asks a test, whichever it is.
ghost use Rattle.std.specs.Prelude.{◌≡◌, false, Decides};
ghost use Rattle.model.specs.Of.{of};
ghost use Rattle.timing.specs.Times.{Faster, front};

use crate::test::Test;
use model::roster::Roster;

// Whether a test says yes to one list and no to another. Of a list that is at least as fast it never does.
pub fn turns<T: Test>(test: &T, roster: &Roster, fast: &[u8], slow: &[u8]) -> bool
    ensures answer { Decides result (T.Test.passes test.now (of roster.now) (front (of roster.now) slow.now) × (T.Test.passes test.now (of roster.now) (front (of roster.now) fast.now) → ⊥)) }
    ensures never { Faster (front (of roster.now) fast.now) (front (of roster.now) slow.now) → result ≡ false }
{
    test.ask(roster, slow) && !test.ask(roster, fast)
}
