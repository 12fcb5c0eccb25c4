//! A buffer that fills contexts of fewer than 4,096 bytes up with zeros.
ghost use Rattle.std.specs.Prelude.{◌≡◌, ◌≤◌, ◌-◌, ◌++◌, length, take, drop, replicate};
ghost use Rattle.semantics.specs.Run.{IsContext};
ghost use Rattle.capi.specs.Padding.{padded};

use crate::buffer::put_start;
use mem::Context;
use std::marker::Model;

/// A context of 4,096 bytes: first the bytes that the caller gave, and then zeros. Contracts see this value as the list
/// of all 4,096 bytes.
#[derive(Drop)]
pub struct PaddedContext {
    bytes: [u8; 4096],
    /// How many bytes the caller gave. All bytes after them are 0.
    filled: usize,
}

impl Model for PaddedContext {
    ghost use Rattle.std.specs.Prelude.{ℕ, List};
    ghost use Rattle.capi.specs.Padding.{IsPadded};

    ghost Value = { List ℕ };

    ghost view = { λ p. p.bytes };

    ghost invariant = { λ p. IsPadded p.bytes p.filled };
}

impl PaddedContext {
    /// Creates a context with 4,096 zeros.
    #[tactic(auto, using(crate::proofs::Padding::blank))]
    pub fn new() -> PaddedContext
        ensures { result ≡ replicate 4096 0 }
    {
        PaddedContext {
            bytes: [0; 4096],
            filled: 0,
        }
    }

    /// Replaces the context by `start`, at most 4,096 bytes, and zeros after it. To save time, zeros are written only
    /// over the bytes of the previous `start`.
    #[tactic(auto, using(crate::proofs::Padding::zeros_in, crate::proofs::Padding::refilled, crate::proofs::Padding::filled_again))]
    pub fn fill(&mut self, start: &[u8])
        requires { length start.now ≤ 4096 }
        ensures { self.new ≡ padded start.now }
    {
        overlay(&mut self.bytes, start, self.filled);
        self.filled = start.len();
    }

    /// Returns all 4,096 bytes of the context.
    pub fn bytes(&self) -> &[u8]
        ensures same { result.now ≡ self.now }
        ensures long { length self.now ≡ 4096 }
    {
        let PaddedContext { bytes, .. } = self;
        bytes
    }
}

/// Copies `start` to the beginning of `room`, and makes all later bytes 0. The caller promises that `room` is 0 from
/// index `filled` on, so only earlier bytes are cleared.
#[tactic(auto, using(crate::proofs::Padding::covered, crate::proofs::Padding::cleared))]
fn overlay(room: &mut [u8], start: &[u8], filled: usize)
    requires fits { length start.now ≤ length room.old }
    requires within { filled ≤ length room.old }
    requires zeros { drop filled room.old ≡ replicate (length room.old - filled) 0 }
    ensures { room.new ≡ start.now ++ replicate (length room.old - length start.now) 0 }
{
    put_start(room, start);
    let count = start.len();
    if filled <= count {
        return;
    }
    clear(room, count, filled);
}

/// Sets the bytes of `room` from index `from` to index `to - 1` to 0.
fn clear(room: &mut [u8], from: usize, to: usize)
    requires { (from ≤ to) × (to ≤ length room.old) }
    ensures { room.new ≡ take from room.old ++ (replicate (to - from) 0 ++ drop to room.old) }
{
    room[from..to].fill(0);
}
