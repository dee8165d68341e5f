// Two tariffs at once: first parts are compared first.
ghost use Rattle.std.specs.Prelude.{true, false, if◌then◌else◌, Some, codes};
ghost use Rattle.std.specs.Fmt.{◌++?◌};
ghost use Rattle.tariffs.specs.Lexical.{lexical};
ghost use Rattle.std.proofs.Common.{rules};

use crate::amount::Amount;
use crate::tariff::Tariff;
use model::roster::Roster;
use std::fmt;

// Not the pair of tests: tests and tariffs know nothing of each other, and a common type would have to lie below both.
#[derive(Clone, Copy, PartialEq, Eq, PartialOrd, Ord, Debug, Default)]
pub struct Paired<A, B> {
    pub first: A,
    pub second: B,
}

impl<A: Amount, B: Amount> Amount for Paired<A, B> {
    ghost none = { record { first = A.Amount.none; second = B.Amount.none } };

    ghost joined = { λ a b. record { first = A.Amount.joined a.first b.first; second = B.Amount.joined a.second b.second } };

    ghost leq = { λ a b. (if A.Amount.leq a.first b.first then (if A.Amount.leq b.first a.first then B.Amount.leq a.second b.second else true) else false) };

    ghost within = { λ n a. A.Amount.within n a.first × B.Amount.within n a.second };

    ghost lawful = { lexical A.Amount.lawful B.Amount.lawful };

    // The derived default is no plainer: it would ask `Default` of every amount, which has a zero already.
    fn zero() -> Paired<A, B> {
        Paired {
            first: A::zero(),
            second: B::zero(),
        }
    }

    fn join(self, other: Paired<A, B>) -> Paired<A, B> {
        Paired {
            first: self.first.join(other.first),
            second: self.second.join(other.second),
        }
    }

    // The derived `<=` is no plainer: it would ask an order of all values, and an amount owes one up to a count of prices.
    fn at_most(&self, other: &Paired<A, B>) -> bool {
        self.first.at_most(&other.first)
            && (!other.first.at_most(&self.first) || self.second.at_most(&other.second))
    }
}

impl<A: Tariff, B: Tariff> Tariff for Paired<A, B> {
    ghost priced = { λ s i g. record { first = A.Tariff.priced s i g; second = B.Tariff.priced s i g } };

    ghost one = { Prim.search rules };

    ghost outside = { Prim.search rules };

    fn price(roster: &Roster, place: usize, step: u8) -> Paired<A, B> {
        Paired {
            first: A::price(roster, place, step),
            second: B::price(roster, place, step),
        }
    }
}

// Both parts, with one space between.
impl<A: fmt::Display, B: fmt::Display> fmt::Display for Paired<A, B> {
    ghost output = { λ p. A.output p.first ++? Some (codes " ") ++? B.output p.second };

    fn fmt<W: fmt::Write>(&self, f: &mut fmt::Formatter<W>) -> fmt::Result {
        write!(f, "{} {}", self.first, self.second)
    }
}
