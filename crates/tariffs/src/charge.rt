// The charge of a set.
ghost use Rattle.std.specs.Prelude.{◌≡◌};
ghost use Rattle.model.specs.Of.{of};
ghost use Rattle.tariffs.specs.Charges.{charge_of};

use crate::tariff::Tariff;
use model::roster::Roster;

// Joins the prices of all tasks from zero, in priority order; a place that the list lacks adds nothing.
// A `for` in place of a `fold`: the project's rules ask for this loop.
pub fn charge<C: Tariff>(roster: &Roster, set: &[u8]) -> C
    ensures { result ≡ charge_of (C.Amount) (C.Tariff.own) (of roster.now) set.now }
{
    let mut sum = C::zero();
    for (place, (_, step)) in roster.tasks().iter().zip(set).enumerate() {
        sum = sum.join(C::price(roster, place, *step));
    }
    sum
}
