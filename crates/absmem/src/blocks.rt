//! The 64 blocks of eight stack cells, with the stored pointer that is known to begin in each.
ghost use Rattle.std.specs.Prelude.{◌≡◌, ◌<◌, ◌↔◌, ℕ, IsTrue, length, replicate, slice_set};
ghost use Rattle.absmem.specs.Known.{spill_at};
ghost use Rattle.absmem.specs.Holding.{holds_pointer};

use crate::mask;
use crate::spill::Spill;
use std::marker::Model;

/// For each of the 64 blocks of eight stack cells, the stored pointer that is known to begin there. The bits of
/// `holding` say which blocks have one.
#[derive(Drop)]
pub(crate) struct Blocks {
    holding: u64,
    spills: [Spill; 64],
}

impl Model for Blocks {
    ghost use Rattle.std.specs.Prelude.{List};
    ghost use Rattle.absmem.specs.declared.spill.Spill.{Spill as Known};
    ghost use Rattle.absmem.specs.Holding.{IsHolding};

    ghost Value = { List Known };

    ghost view = { λ b. b.spills };

    ghost invariant = { λ b. IsHolding b.holding b.spills };
}

impl Blocks {
    /// Returns blocks in which no pointer is known to begin.
    pub(crate) fn free() -> Blocks
        ensures { result ≡ replicate 64 Spill.Free }
    {
        Blocks {
            holding: 0,
            spills: [Spill::Free; 64],
        }
    }

    /// Checks whether no pointer is known to begin in any block.
    pub(crate) fn is_free(&self) -> bool
        ensures free { IsTrue result ↔ ((b : ℕ) → b < 64 → spill_at self.now b ≡ Spill.Free) }
        ensures size { length self.now ≡ 64 }
    {
        self.holding == 0
    }

    /// Returns what is known of the block with index `b`.
    pub(crate) fn at(&self, b: usize) -> Spill
        requires { b < 64 }
        ensures known { result ≡ spill_at self.now b }
        ensures size { length self.now ≡ 64 }
    {
        self.spills[b]
    }

    /// Replaces what is known of the block with index `b`.
    pub(crate) fn set(&mut self, b: usize, spill: Spill)
        requires { b < 64 }
        ensures { self.new ≡ slice_set self.old b spill }
    {
        self.holding = mask::put(self.holding, 1 << b, holds(spill));
        self.spills[b] = spill;
    }

    /// Returns a copy of the blocks.
    pub(crate) fn copy(&self) -> Blocks
        ensures { result ≡ self.now }
    {
        Blocks {
            holding: self.holding,
            spills: self.spills,
        }
    }

    /// Copies `other` into these blocks. For speed, nothing is copied if neither has a known pointer.
    pub(crate) fn assign(&mut self, other: &Blocks)
        ensures { self.new ≡ other.now }
    {
        if self.holding != 0 || other.holding != 0 {
            self.spills = other.spills;
            self.holding = other.holding;
        }
    }
}

/// Checks whether a pointer is known to begin in a block.
fn holds(spill: Spill) -> bool
    ensures { result ≡ holds_pointer spill }
{
    match spill {
        Spill::Free => false,
        Spill::Whole { .. } => true,
    }
}
