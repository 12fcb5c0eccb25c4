//! Computes with sets of generals that are stored as bit masks: bit g is set if general g is in the set.
ghost use Rattle.std.specs.Prelude.{◌≡◌, ◌<◌, ◌≤◌, ◌==◌, ◌^◌, cond, ℕ, sum_by, nat_lt};
ghost use Rattle.std.specs.Int.{bit_at};
ghost use Rattle.label.specs.Generals.{IsGenerals};
ghost use Rattle.label.specs.Labels.{on};

/// Returns whether a general (0 to 15) is in the set.
pub(crate) fn has(bits: u16, general: u8) -> bool
    requires { general < 16 }
    ensures { result ≡ (bit_at bits general == 1) }
{
    (bits >> general) & 1 == 1
}

/// Returns the set with this general (0 to 15) added.
pub(crate) fn with(bits: u16, general: u8) -> u16
    requires { general < 16 }
    ensures { (g : ℕ) → bit_at result g ≡ cond (general == g) 1 (bit_at bits g) }
{
    bits | (1 << general)
}

/// Returns the set without the members of the set `others`.
pub(crate) fn without(bits: u16, others: u16) -> u16
    ensures { (g : ℕ) → bit_at result g ≡ cond (bit_at others g == 1) 0 (bit_at bits g) }
{
    bits & !others
}

/// Returns the set of the generals from 0 to `generals` - 1 as a bit mask. `generals` is at most 13.
pub(crate) fn below(generals: u8) -> u16
    requires { generals ≤ 13 }
    ensures { (g : ℕ) → bit_at result g ≡ cond (nat_lt g generals) 1 0 }
{
    (1 << generals) - 1
}

/// Returns the set of the listed generals as a bit mask: bit g is set exactly if general g is in the list.
pub(crate) fn of(generals: &[u8]) -> u16
    requires { IsGenerals generals.now }
    ensures same { result ≡ sum_by (λ g. 2 ^ g) generals.now }
    ensures bits { (g : ℕ) → bit_at result g ≡ cond (on generals.now g) 1 0 }
{
    let mut bits = 0;
    for general in generals {
        bits = with(bits, *general);
    }
    bits
}
