// What a schedulability test is.
ghost use Rattle.std.specs.Prelude.{ℕ, List, Decides};
ghost use Rattle.model.specs.Of.{of};
ghost use Rattle.model.specs.System.{System};
ghost use Rattle.schedulability.specs.Laws.{TestLaws};
ghost use Rattle.timing.specs.Times.{front};

use model::roster::Roster;

// Anything that answers by the two rules of `TestLaws`. A rule of the project: a trait, since a closure could not carry
// these, with one question on a roster and a list.
pub trait Test {
    // the sets that pass
    ghost passes: { Self → System → List ℕ → Type 0 };

    // Yes exactly when the set that the list stands for passes; places past the tasks are not read.
    fn ask(&self, roster: &Roster, list: &[u8]) -> bool
        ensures { Decides result (passes self.now (of roster.now) (front (of roster.now) list.now)) };

    ghost lawful: { TestLaws passes };
}
