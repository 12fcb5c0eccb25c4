//! Reads sets of generals that are stored as bits: bit g is set if general g is in the set.
ghost use Rattle.std.specs.Prelude.{◌≡◌, ◌<◌, ◌==◌};
ghost use Rattle.std.specs.Int.{bit_at};
ghost use Rattle.signed.specs.Sending.{named};

use arrayvec::ArrayVec;

/// Returns whether the bit of this general (0 to 15) is set.
fn has(bits: u16, general: u8) -> bool
    requires { general < 16 }
    ensures { result ≡ (bit_at bits general == 1) }
{
    (bits >> general) & 1 == 1
}

/// Returns the generals whose bits are set, ascending.
pub fn named(bits: u16) -> ArrayVec<u8, 16>
    ensures { result.items ≡ named bits }
{
    let mut generals = ArrayVec::new();
    for general in 0..16 {
        if has(bits, general) {
            generals.push(general);
        }
    }
    generals
}
