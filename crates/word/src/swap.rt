//! Computes byte swaps: puts the low bytes of a word in a given byte order.

ghost use Rattle.std.specs.Prelude.{◌≡◌};
ghost use Rattle.word.specs.Arithmetic.{swapped};

use crate::low_bits::{low_half, low_word};
use crate::{ByteOrder, SwapSize};

/// Returns the low 2, 4 or 8 bytes of a word in the given byte order, on a little-endian host. The bytes above them are
/// zero.
pub fn swap(order: ByteOrder, size: SwapSize, a: u64) -> u64
    ensures { result ≡ swapped order size a }
{
    match order {
        ByteOrder::Little => low_bytes(size, a),
        ByteOrder::Big => reversed_bytes(size, a),
        ByteOrder::Reversed => reversed_bytes(size, a),
    }
}

/// Returns the low 2, 4 or 8 bytes of a word. The bytes above them are zero.
fn low_bytes(size: SwapSize, a: u64) -> u64
    ensures { result ≡ swapped ByteOrder.Little size a }
{
    match size {
        SwapSize::Half => u64::from(low_half(a)),
        SwapSize::Word => u64::from(low_word(a)),
        SwapSize::Double => a,
    }
}

/// Returns the low 2, 4 or 8 bytes of a word in reverse order. The bytes above them are zero.
fn reversed_bytes(size: SwapSize, a: u64) -> u64
    ensures { result ≡ swapped ByteOrder.Reversed size a }
{
    match size {
        SwapSize::Half => u64::from(low_half(a).swap_bytes()),
        SwapSize::Word => u64::from(low_word(a).swap_bytes()),
        SwapSize::Double => a.swap_bytes(),
    }
}
