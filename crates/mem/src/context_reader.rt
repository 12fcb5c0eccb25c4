//! Reads numbers from the bytes of a context.
ghost use Rattle.std.specs.Prelude.{◌≡◌, ◌+◌, ◌*◌, ◌≤◌, length, take, drop};
ghost use Rattle.word.specs.Bytes.{little_number};
ghost use Rattle.semantics.specs.Outbox.{taken_value};
ghost use Rattle.mem.specs.ContextLayout.{number_told};

use byteorder::{ByteOrder, LittleEndian};

/// Returns the 32-bit little-endian number in the 4 bytes from index `place` on.
#[inline(always)]
pub fn word_at(bytes: &[u8], place: usize) -> u32
    requires { place + 4 ≤ length bytes.now }
    ensures { result ≡ little_number (take 4 (drop place bytes.now)) }
{
    LittleEndian::read_u32(&bytes[place..])
}

/// Returns the number with index `word` in a context, which is a list of 4-byte numbers.
pub fn number_told(context: &[u8], word: usize) -> u32
    requires { 4 * word + 4 ≤ length context.now }
    ensures { result ≡ number_told context.now word }
{
    word_at(context, 4 * word)
}

/// Returns from a context the order that the general took for the label with this rank. A context begins with eight
/// numbers of 4 bytes, and then has one for each rank.
#[inline(always)]
pub fn taken_value(context: &[u8], rank: usize) -> u32
    requires { 36 + 4 * rank ≤ length context.now }
    ensures { result ≡ taken_value context.now rank }
{
    word_at(context, 32 + 4 * rank)
}
