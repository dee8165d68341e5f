// An odometer of up to sixteen wheels with up to eight digits each.
ghost use Rattle.std.specs.Prelude.{◌≤◌};
ghost use Rattle.odometer.specs.Digits.{total};

use std::marker::Model;

pub mod calls;
mod turns;

const MAX_BASE: u8 = 8;

const MAX_PLACES: usize = 16;

#[derive(Clone, Copy, PartialEq, Eq, Debug)]
pub struct Odometer {
    base: u8,
    places: usize,
    number: u64,
    // kept, since every step asks for it
    count: u64,
    // Fixed memory that is copied: `arrayvec` is not `Copy`, so the places count the wheels in use.
    wheels: [u8; MAX_PLACES],
    ghost some: { 1 ≤ base },
    ghost eight: { base ≤ 8 },
    ghost few: { places ≤ 16 },
    ghost within: { number ≤ total base places },
}

// Clauses see the base, the places and the number.
impl Model for Odometer {
    ghost use Rattle.odometer.specs.Counter.{Counter};
    ghost use Rattle.std.proofs.Common.{sym};

    ghost Value = { Counter };

    ghost use Rattle.odometer.specs.Wheels.{counter, Kept, fields};

    ghost view = { counter };

    ghost invariant = { Kept };

    // The view forgets the total and the wheels only, and they follow from it.
    ghost inverse = { fields };

    ghost inverse_ok = { λ o kept i. record o { count = sym kept.all i; wheels = sym kept.shown i } };
}
