//! Abstract stacks: how stores, and joins of two paths, change what is known of the stack.
ghost use Rattle.std.specs.Prelude.{◌≡◌, ◌+◌, ◌/◌, ◌%◌, ◌<◌, ◌≤◌, ◌↔◌, ℕ, true, List, IsTrue, IfSome, length, slice_range};
ghost use Rattle.semantics.specs.declared.value.Cell.{Cell};
ghost use Rattle.semantics.specs.Memory.{overwritten, pieces_of};
ghost use Rattle.absmem.specs.Known.{byte_at, spill_at, pointer_of};
ghost use Rattle.absmem.specs.Stacks.{unknown_stack, put_bytes, spread_bytes, put_pointer, joined_stack};
ghost use Rattle.absmem.specs.Describes.{Describes, AreBytes};

use crate::blocks::Blocks;
use crate::cell_set::CellSet;
use crate::pointers;
use crate::spill::Spill;
use absval::Offset;
use semantics::Region;
use std::marker::Model;

/// An abstract stack: what the verifier knows of the 512 stack cells.
#[derive(Drop)]
pub struct AbsStack {
    bytes: CellSet,
    spills: Blocks,
}

impl Model for AbsStack {
    ghost use Rattle.absmem.specs.Known.{Known, IsKnownStack};

    ghost Value = { Known };

    ghost view = { λ s. record { bytes = s.bytes; spills = s.spills } };

    ghost invariant = { λ s. IsKnownStack s.bytes s.spills };
}

impl AbsStack {
    /// Returns the abstract stack with which nothing is known.
    pub fn unknown() -> AbsStack
        ensures exact { result ≡ unknown_stack }
        ensures holds { (cells : List Cell) → Describes result cells }
    {
        AbsStack {
            bytes: CellSet::none(),
            spills: Blocks::free(),
        }
    }

    /// Returns a copy of the abstract stack.
    pub fn copy(&self) -> AbsStack
        ensures { result ≡ self.now }
    {
        AbsStack {
            bytes: self.bytes,
            spills: self.spills.copy(),
        }
    }

    /// Copies `other` into this abstract stack.
    pub fn assign(&mut self, other: &AbsStack)
        ensures { self.new ≡ other.now }
    {
        self.bytes = other.bytes;
        self.spills.assign(&other.spills);
    }

    /// Records that bytes are stored in the `size` cells from index `place` on.
    pub fn put_bytes(&mut self, place: usize, size: usize)
        requires within { place + size ≤ 512 }
        ensures exact { self.new ≡ put_bytes place size self.old }
        ensures holds { (cells new : List Cell) → Describes self.old cells → length cells ≡ 512 → AreBytes new →
            length new ≡ size →
            Describes self.new (overwritten cells place new) }
    {
        let end = place + size;
        pointers::clear(&mut self.spills, place, end);
        self.bytes.set(place, end, true);
    }

    /// Records that bytes are stored in some of the `size` cells from index `place` on, when it is not known in which.
    /// Stored pointers there are forgotten, and no further cell becomes known to be a byte.
    pub fn spread_bytes(&mut self, place: usize, size: usize)
        requires within { place + size ≤ 512 }
        ensures exact { self.new ≡ spread_bytes place size self.old }
        ensures holds { (cells new : List Cell) (at : ℕ) → Describes self.old cells → length cells ≡ 512 →
            AreBytes new → place ≤ at → at + length new ≤ place + size →
            Describes self.new (overwritten cells at new) }
    {
        pointers::clear(&mut self.spills, place, place + size);
    }

    /// Records that a pointer is stored in the 8 cells from index `place` on.
    pub fn put_pointer(&mut self, place: usize, region: Region, offset: Offset)
        requires within { place + 8 ≤ 512 }
        ensures exact { self.new ≡ put_pointer place region offset self.old }
        ensures holds { (cells : List Cell) → Describes self.old cells → length cells ≡ 512 →
            Describes self.new (overwritten cells place (pieces_of region offset)) }
    {
        pointers::clear(&mut self.spills, place, place + 8);
        self.bytes.set(place, place + 8, false);
        pointers::put(&mut self.spills, place, region, offset.at);
    }

    /// Checks whether the `size` cells from index `place` on are all known to be bytes.
    pub fn has_bytes(&self, place: usize, size: usize) -> bool
        requires within { place + size ≤ 512 }
        ensures known { IsTrue result ↔ ((k : ℕ) → place ≤ k → k < place + size → byte_at self.now.bytes k ≡ true) }
        ensures holds { IsTrue result → (cells : List Cell) (at n : ℕ) → Describes self.now cells → length cells ≡ 512 →
            place ≤ at → at + n ≤ place + size →
            AreBytes (slice_range cells at (at + n)) }
    {
        self.bytes.has(place, place + size)
    }

    /// Returns the region and the offset of the whole pointer that is known to be stored in the 8 cells from index
    /// `place` on. Returns `None` if no pointer is known there.
    pub fn pointer_at(&self, place: usize) -> Option<(Region, Offset)>
        requires within { place + 8 ≤ 512 }
        ensures known { result ≡ pointer_of (place % 8) (spill_at self.now.spills (place / 8)) }
        ensures holds { IfSome result
            (λ p. (cells : List Cell) → Describes self.now cells →
            slice_range cells place (place + 8) ≡ pieces_of p.0 p.1) }
    {
        let Spill::Whole {
            shift,
            region,
            offset,
        } = self.spills.at(place / 8)
        else {
            return None;
        };
        if shift as usize == place % 8 {
            return Some((region, Offset { at: offset }));
        }
        None
    }

    /// Joins what is known of the stack on two paths: keeps what is true on both.
    pub fn join(&mut self, other: &AbsStack)
        ensures exact { self.new ≡ joined_stack self.old other.now }
        ensures left { (cells : List Cell) → Describes self.old cells → Describes self.new cells }
        ensures right { (cells : List Cell) → Describes other.now cells → Describes self.new cells }
    {
        self.bytes.intersect(&other.bytes);
        pointers::join(&mut self.spills, &other.spills);
    }
}
