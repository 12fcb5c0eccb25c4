//! Stores sets of numbers below 16 as bit masks: bit n is set if n is in the set.
ghost use Rattle.std.specs.Prelude.{◌≡◌, ◌<◌, ◌==◌, ◌||◌, ◌&&◌, not, ℕ};
ghost use Rattle.outbox.specs.Masks.{has_bit};

/// Returns whether a number below 16 is in the set `mask`.
pub(crate) fn has_bit(mask: u16, number: u32) -> bool
    requires { number < 16 }
    ensures { result ≡ has_bit mask number }
{
    (mask >> number) & 1 == 1
}

/// Returns the set `mask` with a number below 16 added.
pub(crate) fn with_bit(mask: u16, number: u32) -> u16
    requires { number < 16 }
    ensures { (n : ℕ) → has_bit result n ≡ (number == n || has_bit mask n) }
{
    mask | (1 << number)
}

/// Returns the set `mask` with a number below 16 removed.
pub(crate) fn without_bit(mask: u16, number: u32) -> u16
    requires { number < 16 }
    ensures { (n : ℕ) → n < 16 → has_bit result n ≡ (not (n == number) && has_bit mask n) }
{
    mask & !(1 << number)
}
