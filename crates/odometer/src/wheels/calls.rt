// The calls of an odometer.
ghost use Rattle.std.specs.Prelude.{◌≡◌, ℕ, ◌+◌, ◌<◌, ◌≤◌, min, max};
ghost use Rattle.std.specs.List.{AllZip};
ghost use Rattle.odometer.specs.Digits.{digits, total, Zeros, next_multiple};

use super::{MAX_BASE, MAX_PLACES, Odometer, turns};

impl Odometer {
    // At 0. A base outside 1 to 8 is taken as the nearest bound, and more than 16 places as 16.
    pub fn new(base: u8, places: usize) -> Odometer
        ensures base { result.base ≡ min (max base 1) 8 }
        ensures places { result.places ≡ min places 16 }
        ensures number { result.number ≡ 0 }
    {
        let base = base.clamp(1, MAX_BASE);
        let places = places.min(MAX_PLACES);
        Odometer {
            base,
            places,
            number: 0,
            count: turns::power(base, places),
            wheels: [0; MAX_PLACES],
        }
    }

    pub fn number(&self) -> u64
        ensures { result ≡ self.now.number }
    {
        self.number
    }

    // How many numbers there are.
    pub fn total(&self) -> u64
        ensures { result ≡ total self.now.base self.now.places }
    {
        self.count
    }

    // The digits of the number, the most significant first. Past the last number all are 0.
    pub fn digits(&self) -> &[u8]
        ensures { result.now ≡ digits self.now.base self.now.places self.now.number }
    {
        &self.wheels[..self.places]
    }

    // The count of zero digits at the end.
    pub fn zeros(&self) -> usize
        ensures { Zeros self.now.base self.now.places self.now.number result }
    {
        self.wheels[..self.places]
            .iter()
            .rev()
            .take_while(|wheel| **wheel == 0)
            .count()
    }

    // The least multiple of base ^ k above the number, where numbers are left.
    fn next_multiple(&self, k: usize) -> u64
        requires few { k ≤ self.now.places }
        requires left { self.now.number < total self.now.base self.now.places }
        ensures { result ≡ next_multiple self.now.base k self.now.number }
    {
        (self.number + 1).next_multiple_of(turns::power(self.base, k))
    }

    // On to the least multiple of base ^ k above the number, or past the last number where that is less.
    pub fn advance(&mut self, k: usize)
        ensures base { self.new.base ≡ self.old.base }
        ensures places { self.new.places ≡ self.old.places }
        ensures number { self.new.number ≡ min (next_multiple self.old.base k self.old.number) (total self.old.base self.old.places) }
    {
        if self.number >= self.count {
            return;
        }
        let (base, places) = (self.base, self.places);
        let cleared = k.min(places);
        self.number = self.next_multiple(cleared);
        // out and back: no rule covers a loan of one field of a value whose other fields have a proof beside them
        let mut wheels = self.wheels;
        turns::forward(&mut wheels[..places], base, cleared);
        self.wheels = wheels;
    }

    // On past every number that has in no place a smaller digit than this one.
    pub fn skip(&mut self)
        ensures base { self.new.base ≡ self.old.base }
        ensures places { self.new.places ≡ self.old.places }
        ensures number { (z : ℕ) → Zeros self.old.base self.old.places self.old.number z → self.new.number ≡ min (next_multiple self.old.base (z + 1) self.old.number) (total self.old.base self.old.places) }
        ensures passed { (n : ℕ) → self.old.number ≤ n → n < self.new.number → AllZip ◌≤◌ (digits self.old.base self.old.places self.old.number) (digits self.old.base self.old.places n) }
    {
        self.advance(self.zeros() + 1);
    }
}
