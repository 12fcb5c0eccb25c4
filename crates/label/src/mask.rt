//! Represents sets of generals as bit masks. Bit `g` is set if general `g` is free, which means that he is not on a
//! given list.
ghost use Rattle.std.specs.Prelude.{◌≡◌, ◌<◌, ◌∷◌, ◌++◌, [], length, ℕ, List};
ghost use Rattle.label.specs.Labels.{others};
ghost use Rattle.label.specs.Mask.{IsFree};

/// Returns the mask in which every general is free.
pub(crate) fn all_free() -> u32
    ensures { IsFree result [] }
{
    u32::MAX
}

/// Returns the mask in which `general` is no longer free. He must be below 32.
pub(crate) fn without(free: u32, general: u8) -> u32
    requires { general < 32 }
    ensures { (v : List ℕ) → IsFree free v → IsFree result (v ++ general ∷ []) }
{
    free & !(1 << general)
}

/// Returns the number of generals who are free in the mask and have a lower number than `general`. He must be below
/// 32.
pub(crate) fn free_below(free: u32, general: u8) -> u32
    requires { general < 32 }
    ensures { (v : List ℕ) → IsFree free v → result ≡ length (others general v) }
{
    (free & ((1 << general) - 1)).count_ones()
}
