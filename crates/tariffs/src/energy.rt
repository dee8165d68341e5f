// The energy of one release of each task: cycles times voltage squared.
ghost use Rattle.std.specs.Prelude.{◌+◌, ◌*◌, ◌≤◌, Some, decimal, nat_le};
ghost use Rattle.tariffs.specs.Prices.{energy_price, max_energy_price};
ghost use Rattle.std.proofs.Common.{rules};
ghost use Rattle.tariffs.specs.Bounds.{energy_bound};

use crate::amount::Amount;
use crate::tariff::{Tariff, task_at_step};
use model::roster::Roster;
use std::fmt;

#[derive(Clone, Copy, PartialEq, Eq, PartialOrd, Ord, Debug, Default)]
pub struct Energy {
    pub amount: u64,
}

impl Amount for Energy {
    ghost none = { record { amount = 0 } };

    ghost joined = { λ a b. record { amount = a.amount + b.amount } };

    ghost leq = { λ a b. nat_le a.amount b.amount };

    ghost within = { λ n a. a.amount ≤ n * max_energy_price };

    ghost lawful = { Prim.search rules };

    fn zero() -> Energy {
        Energy::default()
    }

    fn join(self, other: Energy) -> Energy {
        Energy {
            amount: self.amount.saturating_add(other.amount),
        }
    }

    fn at_most(&self, other: &Energy) -> bool {
        self <= other
    }
}

impl Tariff for Energy {
    ghost priced = { λ s i g. record { amount = energy_price s i g } };

    ghost one = { energy_bound };

    ghost outside = { Prim.search rules };

    fn price(roster: &Roster, place: usize, step: u8) -> Energy {
        let Some((task, step)) = task_at_step(roster, place, step) else {
            return Energy::zero();
        };
        let voltage = u64::from(step.voltage);
        Energy {
            amount: u64::from(task.cycles) * (voltage * voltage),
        }
    }
}

impl fmt::Display for Energy {
    ghost output = { λ e. Some (decimal e.amount) };

    fn fmt<W: fmt::Write>(&self, f: &mut fmt::Formatter<W>) -> fmt::Result {
        write!(f, "{}", self.amount)
    }
}
