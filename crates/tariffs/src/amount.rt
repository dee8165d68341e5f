// Amounts of charge.
ghost use Rattle.std.specs.Prelude.{◌≡◌, ℕ, ◌+◌, ◌≤◌, Bool};
ghost use Rattle.tariffs.specs.Amounts.{AmountLaws, max_prices};

// What can be compared and joined, and has a zero.
pub trait Amount: Copy {
    ghost none: { Self };

    ghost joined: { Self → Self → Self };

    // the first is no greater than the second
    ghost leq: { Self → Self → Bool };

    // an amount that so many prices can make up
    ghost within: { ℕ → Self → Type 0 };

    fn zero() -> Self
        ensures { result ≡ none };

    // The join is owed up to the count of prices; past it any amount may come.
    fn join(self, other: Self) -> Self
        ensures { (m n : ℕ) → m + n ≤ max_prices → within m self → within n other → result ≡ joined self other };

    fn at_most(&self, other: &Self) -> bool
        ensures { result ≡ leq self.now other.now };

    ghost lawful: { AmountLaws none joined leq within };
}
