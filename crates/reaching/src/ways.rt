//! Finds the units to which an instruction may lead, and whether one of them has the mark `Open`.
ghost use Rattle.std.specs.Prelude.{◌≡◌, ◌≢◌, ◌<◌, ◌+◌, ◌+ℤ◌, ◌∷◌, [], pos, ℕ, IfSome, IfNone, slice_get};
ghost use Rattle.semantics.specs.Plain.{leads_to};
ghost use Rattle.reaching.specs.Marks.{is_open, open_at, leads_open};
ghost use Rattle.reaching.specs.Setters.{way_to};

use crate::mark::UnitMark;
use insn::Insn;

/// Checks whether a unit has the mark `Open`. Returns `false` if there is no such unit.
fn is_open(marks: &[UnitMark], unit: usize) -> bool
    ensures { result ≡ is_open (slice_get marks.now unit) }
{
    match marks.get(unit) {
        Some(UnitMark::Open) => true,
        _ => false,
    }
}

/// Returns the unit to which a jump at `unit` with this distance leads: `unit + 1 + distance`. Returns `None` if this
/// is negative.
fn target(unit: usize, distance: i32) -> Option<usize>
    requires { unit < 4096 }
    ensures there { IfSome result (λ n. pos n ≡ pos (unit + 1) +ℤ distance) }
    ensures nowhere { IfNone result ((n : ℕ) → pos n ≢ pos (unit + 1) +ℤ distance) }
{
    let to = unit as i64 + 1 + i64::from(distance);
    if to < 0 {
        return None;
    }
    Some(to as usize)
}

/// Checks whether a jump at `unit` with this distance leads to a unit with the mark `Open`.
fn is_open_to(marks: &[UnitMark], unit: usize, distance: i32) -> bool
    requires { unit < 4096 }
    ensures { result ≡ open_at marks.now (pos (unit + 1) +ℤ distance) }
{
    match target(unit, distance) {
        Some(to) => is_open(marks, to),
        None => false,
    }
}

/// Checks whether the instruction at `unit` may lead to a unit with the mark `Open`: the next one, or the target of a
/// jump.
#[inline(never)]
pub(crate) fn leads_open(marks: &[UnitMark], insn: &Insn, unit: usize) -> bool
    requires { unit < 4096 }
    ensures { result ≡ leads_open marks.now (leads_to insn.now unit) }
{
    match insn {
        Insn::Jump { distance } => is_open_to(marks, unit, i32::from(*distance)),
        Insn::LongJump { distance } => is_open_to(marks, unit, *distance),
        Insn::Branch { distance, .. } => {
            is_open(marks, unit + 1) || is_open_to(marks, unit, i32::from(*distance))
        }
        Insn::Exit => false,
        _ => is_open(marks, unit + insn.units() as usize),
    }
}

/// The units to which an instruction may lead.
#[derive(Clone, Copy)]
pub(crate) enum Way {
    /// It leads to no unit.
    End,
    /// It leads to this unit.
    One(usize),
    /// It leads to the next unit and to the target of a jump.
    Two(usize, usize),
}

/// Returns the way along a jump at `unit` with this distance. It ends there if the target is negative.
fn jump_way(unit: usize, distance: i32) -> Way
    requires { unit < 4096 }
    ensures { result ≡ way_to ((pos (unit + 1) +ℤ distance) ∷ []) }
{
    match target(unit, distance) {
        Some(to) => Way::One(to),
        None => Way::End,
    }
}

/// Returns the ways from a branch at `unit` with this distance. Only one is left if the target is negative.
fn branch_ways(unit: usize, distance: i32) -> Way
    requires { unit < 4096 }
    ensures { result ≡ way_to (pos (unit + 1) ∷ (pos (unit + 1) +ℤ distance) ∷ []) }
{
    match target(unit, distance) {
        Some(to) => Way::Two(unit + 1, to),
        None => Way::One(unit + 1),
    }
}

/// Returns the units to which the instruction at `unit` may lead: the next one, or the target of a jump. A target that
/// is negative is left out.
pub(crate) fn way_of(insn: &Insn, unit: usize) -> Way
    requires { unit < 4096 }
    ensures { result ≡ way_to (leads_to insn.now unit) }
{
    match insn {
        Insn::Jump { distance } => jump_way(unit, i32::from(*distance)),
        Insn::LongJump { distance } => jump_way(unit, *distance),
        Insn::Branch { distance, .. } => branch_ways(unit, i32::from(*distance)),
        Insn::Exit => Way::End,
        _ => Way::One(unit + insn.units() as usize),
    }
}
