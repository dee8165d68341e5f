// The highest voltage that any task needs.
ghost use Rattle.std.specs.Prelude.{Some, decimal, max, nat_le};
ghost use Rattle.tariffs.specs.Prices.{peak_price};
ghost use Rattle.std.proofs.Common.{rules};

use crate::amount::Amount;
use crate::tariff::{Tariff, task_at_step};
use model::roster::Roster;
use std::fmt;

#[derive(Clone, Copy, PartialEq, Eq, PartialOrd, Ord, Debug, Default)]
pub struct Peak {
    pub voltage: u32,
}

impl Amount for Peak {
    ghost none = { record { voltage = 0 } };

    ghost joined = { λ a b. record { voltage = max a.voltage b.voltage } };

    ghost leq = { λ a b. nat_le a.voltage b.voltage };

    // a peak does not grow with the count
    ghost within = { λ _ _. Unit {0} };

    ghost lawful = { Prim.search rules };

    fn zero() -> Peak {
        Peak::default()
    }

    fn join(self, other: Peak) -> Peak {
        self.max(other)
    }

    fn at_most(&self, other: &Peak) -> bool {
        self <= other
    }
}

impl Tariff for Peak {
    ghost priced = { λ s i g. record { voltage = peak_price s i g } };

    ghost one = { Prim.search rules };

    ghost outside = { Prim.search rules };

    fn price(roster: &Roster, place: usize, step: u8) -> Peak {
        let Some((_, step)) = task_at_step(roster, place, step) else {
            return Peak::zero();
        };
        Peak {
            voltage: step.voltage,
        }
    }
}

impl fmt::Display for Peak {
    ghost output = { λ p. Some (decimal p.voltage) };

    fn fmt<W: fmt::Write>(&self, f: &mut fmt::Formatter<W>) -> fmt::Result {
        write!(f, "{}", self.voltage)
    }
}
