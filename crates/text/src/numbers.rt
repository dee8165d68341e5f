// Decimal numbers of up to nine digits.
ghost use Rattle.std.specs.Prelude.{◌≡◌, ℕ, ◌<◌, ◌≤◌, length, decimal, Decides, MatchOption, ◌≢◌};
ghost use Rattle.std.specs.Str.Parse.{AllDigits, digits_value};
ghost use Rattle.text.specs.Values.{values, Shaped};

// Whether there are one to nine bytes, and no zero before others.
fn is_shaped(item: &[u8]) -> bool
    ensures { Decides result (Shaped item.now) }
{
    let len = item.len();
    len == 1 || ((2..=9).contains(&len) && item[0] != b'0')
}

// The number that at most nine digits write.
fn read(digits: &[u8]) -> Option<u32>
    requires { length digits.now ≤ 9 }
    ensures { MatchOption result (AllDigits 10 digits.now → ⊥) (λ n. AllDigits 10 digits.now × (n ≡ digits_value 10 digits.now)) }
{
    // A `try_fold` was tried: the bound on what is read so far becomes a premise of its closure, which stayed open.
    let mut read = 0;
    for b in digits {
        read = read * 10 + char::from(*b).to_digit(10)?;
    }
    Some(read)
}

// The value that an item writes: one to nine digits, without leading zeros.
pub fn number(item: &[u8]) -> Option<u32>
    ensures { MatchOption result ((n : ℕ) → n < values → item.now ≢ decimal n) (λ n. (n < values) × (item.now ≡ decimal n)) }
{
    if is_shaped(item) { read(item) } else { None }
}
