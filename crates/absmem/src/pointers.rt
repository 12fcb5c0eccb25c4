//! Whole pointers that are known to be stored on the stack: which of them a store overwrites, and which remain where
//! two paths meet.
ghost use Rattle.std.specs.Prelude.{◌≡◌, ◌+◌, ◌/◌, ◌%◌, ◌<◌, ◌≤◌, ℕ, length, slice_set, if◌then◌else◌};
ghost use Rattle.semantics.specs.Memory.{is_same_region};
ghost use Rattle.absmem.specs.Known.{IsFiled, spill_at, left_of, joined_spill};

use crate::blocks::Blocks;
use crate::spill::Spill;
use semantics::Region;

/// Forgets each stored pointer that has a piece in the cells from index `place` up to but not including `end`.
pub(crate) fn clear(spills: &mut Blocks, place: usize, end: usize)
    requires ordered { place ≤ end }
    requires within { end ≤ 512 }
    requires filed { (b : ℕ) → b < 64 → IsFiled b (spill_at spills.old b) }
    ensures size { length spills.new ≡ 64 }
    ensures each { (b : ℕ) → b < 64 → spill_at spills.new b ≡ left_of place end b (spill_at spills.old b) }
{
    if spills.is_free() {
        return;
    }
    clear_each(spills, place, end);
}

/// Forgets, block by block, each stored pointer that has a piece in the cells from index `place` up to but not
/// including `end`.
#[inline(never)]
fn clear_each(spills: &mut Blocks, place: usize, end: usize)
    requires long { length spills.old ≡ 64 }
    requires ordered { place ≤ end }
    requires within { end ≤ 512 }
    requires filed { (b : ℕ) → b < 64 → IsFiled b (spill_at spills.old b) }
    ensures size { length spills.new ≡ 64 }
    ensures each { (b : ℕ) → b < 64 → spill_at spills.new b ≡ left_of place end b (spill_at spills.old b) }
{
    let first = place.saturating_sub(7) / 8;
    let last = (end + 7) / 8;
    for b in first..last {
        spills.set(b, left(spills.at(b), b, place, end));
    }
}

/// Records that a pointer is stored in the 8 cells from index `place` on.
pub(crate) fn put(spills: &mut Blocks, place: usize, region: Region, offset: i32)
    requires { place + 8 ≤ 512 }
    ensures { spills.new ≡ slice_set spills.old (place / 8) (Spill.Whole (place % 8) region offset) }
{
    spills.set(place / 8, whole(place, region, offset));
}

/// Returns a `Spill`, which says that a pointer is stored in the 8 cells from index `place` on.
fn whole(place: usize, region: Region, offset: i32) -> Spill
    ensures { result ≡ Spill.Whole (place % 8) region offset }
{
    let shift = (place % 8) as u8;
    Spill::Whole {
        shift,
        region,
        offset,
    }
}

/// Returns what is known of block `b` after the cells from index `place` up to but not including `end` are written: a
/// pointer with a piece in these cells is forgotten.
fn left(spill: Spill, b: usize, place: usize, end: usize) -> Spill
    requires { b < 64 }
    ensures { result ≡ left_of place end b spill }
{
    let Spill::Whole { shift, .. } = spill else {
        return Spill::Free;
    };
    let start = 8 * b + shift as usize;
    if place < end && start < end && place < start + 8 {
        return Spill::Free;
    }
    spill
}

/// Joins what is known of stored pointers on two paths: keeps in each of the 64 blocks of eight cells a pointer that is
/// stored there on both.
pub(crate) fn join(spills: &mut Blocks, other: &Blocks)
    ensures size { length spills.new ≡ 64 }
    ensures each { (b : ℕ) → b < 64 →
        spill_at spills.new b ≡ joined_spill (spill_at spills.old b) (spill_at other.now b) }
{
    if spills.is_free() {
        return;
    }
    for b in 0..64 {
        settle(spills, b, other.at(b));
    }
}

/// Joins what is known of block `b` on two paths: keeps its pointer if it is stored there on both. For speed, the block
/// is written only if it changes.
fn settle(spills: &mut Blocks, b: usize, other: Spill)
    requires { b < 64 }
    ensures { spills.new ≡ slice_set spills.old b (joined_spill (spill_at spills.old b) other) }
{
    if !stays(spills.at(b), other) {
        spills.set(b, Spill::Free);
    }
}

/// Checks whether block `a` is unchanged by a join with `b`: it has no pointer, or both have the same one.
fn stays(a: Spill, b: Spill) -> bool
    ensures { joined_spill a b ≡ (if result then a else Spill.Free) }
{
    let Spill::Whole {
        shift,
        region,
        offset,
    } = a
    else {
        return true;
    };
    let Spill::Whole {
        shift: other_shift,
        region: other_region,
        offset: other_offset,
    } = b
    else {
        return false;
    };
    shift == other_shift && same_region(region, other_region) && offset == other_offset
}

/// Checks whether two regions are equal.
fn same_region(a: Region, b: Region) -> bool
    ensures { result ≡ is_same_region a b }
{
    match (a, b) {
        (Region::Stack, Region::Stack) | (Region::Context, Region::Context) => true,
        (Region::Stack, Region::Context) | (Region::Context, Region::Stack) => false,
    }
}
