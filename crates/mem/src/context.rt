//! The context: the 4,096 bytes that a program may read, but not write.
ghost use Rattle.std.specs.Prelude.{◌≡◌, ◌≢◌, ◌+◌, ◌≤◌, length, take, drop, IfSome, IfNone};
ghost use Rattle.word.specs.Bytes.{little_number};
ghost use Rattle.insn.specs.Insn.{bytes_of};
ghost use Rattle.semantics.specs.Run.{IsContext};

use crate::byte_order::number_at;
use crate::context_reader::word_at;
use insn::Size;
use std::marker::Model;

/// A context: the 4,096 bytes that a program may read, but not write. They are borrowed. Contracts see it as a list of
/// bytes.
#[derive(Drop)]
pub struct Context<'a> {
    bytes: &'a [u8],
}

impl<'a> Model for Context<'a> {
    ghost use Rattle.std.specs.Prelude.{ℕ, List};
    ghost use Rattle.semantics.specs.Run.{IsContext};

    ghost Value = { List ℕ };

    ghost view = { λ c. c.bytes.now };

    ghost invariant = { λ c. IsContext c.bytes.now };
}

impl<'a> Context<'a> {
    /// The size of a context in bytes.
    pub const BYTES: usize = crate::layout::BYTES;

    /// Returns the context of these bytes. There must be 4,096 of them.
    pub fn new(bytes: &'a [u8]) -> Context<'a>
        requires { length bytes.now ≡ 4096 }
        ensures same { result ≡ bytes.now }
        ensures context { IsContext bytes.now }
    {
        Context { bytes }
    }

    /// Returns the context of these bytes, or `None` unless there are exactly 4,096 of them.
    pub fn try_new(bytes: &'a [u8]) -> Option<Context<'a>>
        ensures some { IfSome result (λ c. (c ≡ bytes.now) × IsContext bytes.now) }
        ensures none { IfNone result (length bytes.now ≢ 4096) }
    {
        if bytes.len() == Self::BYTES {
            Some(Self::new(bytes))
        } else {
            None
        }
    }

    /// Returns the bytes of the context.
    pub fn bytes(&self) -> &[u8]
        ensures same { result.now ≡ self.now }
        ensures context { IsContext self.now }
    {
        self.bytes
    }

    /// Returns the little-endian number in the `size` bytes from index `place` on.
    pub(crate) fn number(&self, place: usize, size: Size) -> u64
        requires { place + bytes_of size ≤ 4096 }
        ensures { result ≡ little_number (take (bytes_of size) (drop place self.now)) }
    {
        number_at(self.bytes, place, size)
    }

    /// Returns the 32-bit little-endian number in the 4 bytes from index `place` on.
    pub(crate) fn word(&self, place: usize) -> u32
        requires { place + 4 ≤ 4096 }
        ensures { result ≡ little_number (take 4 (drop place self.now)) }
    {
        word_at(self.bytes, place)
    }
}
