// The turns of an odometer's wheels, and the powers of its base.
ghost use Rattle.std.specs.Prelude.{◌≡◌, ℕ, ◌^◌, ◌≤◌, length};
ghost use Rattle.odometer.specs.Digits.{digits, next_multiple};

// A power of a base, as far as there are wheels.
pub(super) fn power(base: u8, k: usize) -> u64
    requires base { base ≤ 8 }
    requires few { k ≤ 16 }
    ensures { result ≡ base ^ k }
{
    // std has no `From` for a usize as u32
    u64::from(base).pow(k as u32)
}

// On from a number to the next multiple of base ^ k: the last wheel before the k last that has room goes on by one, and
// all after it become 0. Past the greatest number they start again at 0.
pub(super) fn forward(wheels: &mut [u8], base: u8, k: usize)
    requires some { 1 ≤ base }
    requires within { k ≤ length wheels.old }
    ensures { (n : ℕ) → wheels.old ≡ digits base (length wheels.old) n → wheels.new ≡ digits base (length wheels.old) (next_multiple base k n) }
{
    let greatest = base - 1;
    let before = wheels.len() - k;
    match wheels[..before].iter().rposition(|wheel| *wheel < greatest) {
        Some(turning) => {
            wheels[turning] += 1;
            wheels[turning + 1..].fill(0);
        }
        None => wheels.fill(0),
    }
}
