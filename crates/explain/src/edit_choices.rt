//! Chooses the edits of a rejected program that may mend its fault. Each is then tried, and the best is offered as a
//! help.
ghost use Rattle.std.specs.Prelude.{◌≡◌, ◌<◌, ◌≤◌, IfSome, slice_get};
ghost use Rattle.reaching.specs.Marks.{is_open};
ghost use Rattle.explain.specs.Helps.{moving_mask, exchanged, copy_of, copy_at, last_copy, by_copy, zero_before, zero_at_exit, for_misuse, for_argument, for_misfit, moved_at, for_access, wanted};

use crate::origins::last_set;
use crate::sentence::{AccessMisuse, Misfit, RegisterMisuse, Sentence};
use absval::AbsVal;
use helper::reads::numbered;
use insn::{Insn, Operand, Program, Reg};
use reaching::{Edit, UnitMark};
use word::{Operation, Width};

/// The edits to try, in order, for a fault.
#[derive(Clone, Copy)]
pub(crate) enum Choice {
    /// Inserts a mask of the register (an `and` with 63, 31, 15, 7, 3 or 1) before the instruction.
    Mask(Reg),
    /// Makes this edit.
    One(Edit),
    /// Makes this edit or, if it does not help, inserts a mask of the register before the instruction.
    Either(Edit, Reg),
    /// Adds the number in the first register to the pointer in the second, instead of the pointer to the number.
    Exchanged(Reg, Reg),
}

/// Chooses to mask the number by which the instruction at `unit` moves a pointer. Returns the unit and the choice, or
/// `None` if the number is not in a register.
fn moving_mask(unit: usize, insn: &Insn) -> Option<(usize, Choice)>
    ensures wanted { result ≡ moving_mask unit insn.now }
    ensures below { IfSome result (λ want. want.0 ≤ unit) }
{
    match insn {
        Insn::Arithmetic {
            operand: Operand::Register(src),
            ..
        } => Some((unit, Choice::Mask(*src))),
        _ => None,
    }
}

/// Chooses to add the number to the pointer, if the instruction at `unit` is a 64-bit sum of two registers. Returns the
/// unit and the choice, and otherwise `None`.
fn exchanged(unit: usize, insn: &Insn) -> Option<(usize, Choice)>
    ensures wanted { result ≡ exchanged unit insn.now }
    ensures below { IfSome result (λ want. want.0 ≤ unit) }
{
    let Insn::Arithmetic {
        width: Width::W64,
        operation: Operation::Add,
        dst,
        operand: Operand::Register(src),
    } = insn
    else {
        return None;
    };
    Some((unit, Choice::Exchanged(*dst, *src)))
}

/// Returns the register to which an instruction copies all 64 bits of register `r`, or `None` if it is not such a copy.
fn copy_of(r: Reg, insn: &Insn) -> Option<Reg>
    ensures { result ≡ copy_of r insn.now }
{
    let Insn::Arithmetic {
        width: Width::W64,
        operation: Operation::Move,
        dst,
        operand: Operand::Register(src),
    } = insn
    else {
        return None;
    };
    if src.number() == r.number() {
        Some(*dst)
    } else {
        None
    }
}

/// Checks whether a unit is marked as open: a path leads from it to the rejected instruction on which the register in
/// question is not set.
fn is_open(marks: &[UnitMark], unit: usize) -> bool
    ensures { result ≡ is_open (slice_get marks.now unit) }
{
    match marks.get(unit) {
        Some(UnitMark::Open) => true,
        _ => false,
    }
}

/// Returns the register to which the instruction at `unit` copies `r`. Returns `None` if it is not such a copy, or if
/// no path leads from it to the rejected instruction on which `r` is not set.
fn copy_at(program: &Program, marks: &[UnitMark], r: Reg, unit: usize) -> Option<Reg>
    ensures { result ≡ copy_at program.now marks.now r unit }
{
    if !is_open(marks, unit) {
        return None;
    }
    match program.at(unit) {
        Some(insn) => copy_of(r, &insn),
        None => None,
    }
}

/// Returns the register to which `r` was last copied below `unit`. A copy counts only if its unit is marked as open: a
/// path leads from it to the rejected instruction on which `r` is not set. Returns `None` if there is no such copy.
#[tactic(auto, using(crate::proofs::CopyLemmas::no_copy, crate::proofs::CopyLemmas::copy_so))]
fn last_copy(program: &Program, marks: &[UnitMark], r: Reg, unit: usize) -> Option<Reg>
    ensures { result ≡ last_copy program.now marks.now r unit }
{
    if unit == 0 {
        return None;
    }
    match copy_at(program, marks, r, unit - 1) {
        Some(copy) => Some(copy),
        None => last_copy(program, marks, r, unit - 1),
    }
}

/// Chooses edits for a sum or difference of a pointer and the number in `r`, which may have either sign. If `copy` is a
/// register with a copy of the number, the edits are to use it or to mask the number. Otherwise the edit is to mask the
/// number. Returns the unit and the choice, never `None`.
fn by_copy(unit: usize, insn: &Insn, r: Reg, copy: Option<Reg>) -> Option<(usize, Choice)>
    ensures wanted { result ≡ by_copy unit insn.now r copy }
    ensures below { IfSome result (λ want. want.0 ≤ unit) }
{
    let Some(copy) = copy else {
        return Some((unit, Choice::Mask(r)));
    };
    match insn {
        Insn::Arithmetic { operation, dst, .. } => {
            let edit = Edit::Instead(*operation, *dst, Operand::Register(copy));
            Some((unit, Choice::Either(edit, r)))
        }
        _ => Some((unit, Choice::Mask(r))),
    }
}

/// Chooses to set r0 to 0 before the instruction at `unit`. Returns the unit and the choice, never `None`.
fn zero_before(unit: usize) -> Option<(usize, Choice)>
    ensures wanted { result ≡ zero_before unit }
    ensures below { IfSome result (λ want. want.0 ≤ unit) }
{
    let zero = Edit::Before(Operation::Move, numbered(0), Operand::Immediate(0));
    Some((unit, Choice::One(zero)))
}

/// Chooses to set r0 to 0 before the instruction at `unit`, if it is the exit. Returns the unit and the choice, and
/// otherwise `None`.
fn zero_at_exit(unit: usize, insn: &Insn) -> Option<(usize, Choice)>
    ensures wanted { result ≡ zero_at_exit unit insn.now }
    ensures below { IfSome result (λ want. want.0 ≤ unit) }
{
    match insn {
        Insn::Exit => zero_before(unit),
        _ => None,
    }
}

/// Chooses edits for a register that the instruction at `unit` misuses. Returns the unit to edit and the choice, or
/// `None` if no edit is known.
fn for_misuse(
    program: &Program,
    marks: &[UnitMark],
    unit: usize,
    insn: &Insn,
    misuse: RegisterMisuse,
) -> Option<(usize, Choice)>
    ensures wanted { result ≡ for_misuse program.now marks.now unit insn.now misuse }
    ensures below { IfSome result (λ want. want.0 ≤ unit) }
{
    match misuse {
        RegisterMisuse::EitherSign(r, _) => by_copy(
            unit,
            insn,
            r,
            last_copy(program, marks, r, unit),
        ),
        RegisterMisuse::Far(_, _, _) => moving_mask(unit, insn),
        RegisterMisuse::Computed(_, _) => exchanged(unit, insn),
        RegisterMisuse::Exit(_) => zero_before(unit),
        RegisterMisuse::Unset(_) => zero_at_exit(unit, insn),
        _ => None,
    }
}

/// Chooses to mask an argument of a call at `unit` that may be too large. Returns the unit and the choice, or `None` if
/// the argument is not a number.
fn for_argument(unit: usize, r: Reg, value: AbsVal) -> Option<(usize, Choice)>
    ensures wanted { result ≡ for_argument unit r value }
    ensures below { IfSome result (λ want. want.0 ≤ unit) }
{
    match value {
        AbsVal::Number(_) => Some((unit, Choice::Mask(r))),
        AbsVal::Unset | AbsVal::Pointer(..) => None,
    }
}

/// Chooses edits for a call at `unit` that does not fit its helper. Returns the unit to edit and the choice, or `None`
/// if no edit is known.
fn for_misfit(unit: usize, misfit: Misfit) -> Option<(usize, Choice)>
    ensures wanted { result ≡ for_misfit unit misfit }
    ensures below { IfSome result (λ want. want.0 ≤ unit) }
{
    match misfit {
        Misfit::Above(_, r, value, _) => for_argument(unit, r, value),
        _ => None,
    }
}

/// Chooses to mask the number by which the instruction at `unit` moves a pointer. Returns the unit and the choice, or
/// `None` if no instruction starts there or the number is not in a register.
fn moved_at(program: &Program, unit: usize) -> Option<(usize, Choice)>
    ensures wanted { result ≡ moved_at program.now unit }
    ensures below { IfSome result (λ want. want.0 ≤ unit) }
{
    let Some(insn) = program.at(unit) else {
        return None;
    };
    moving_mask(unit, &insn)
}

/// Chooses edits for an access at `unit` outside its region: to mask the number that last moved the pointer. Returns
/// the unit to edit and the choice, or `None` if no edit is known.
fn for_access(
    program: &Program,
    marks: &[UnitMark],
    unit: usize,
    access: AccessMisuse,
) -> Option<(usize, Choice)>
    ensures wanted { result ≡ for_access program.now marks.now unit access }
    ensures below { IfSome result (λ want. want.0 ≤ unit) }
{
    let AccessMisuse::Outside(_, _, _) = access else {
        return None;
    };
    moved_at(program, last_set(marks, unit)?)
}

/// Chooses the edits to try for the fault at `unit` that `sentence` describes. Returns the unit to edit, at most
/// `unit`, and the choice. Returns `None` if no edit is known.
pub(crate) fn wanted(
    program: &Program,
    marks: &[UnitMark],
    unit: usize,
    insn: &Insn,
    sentence: &Sentence,
) -> Option<(usize, Choice)>
    ensures wanted { result ≡ wanted program.now marks.now unit insn.now sentence.now }
    ensures below { IfSome result (λ want. want.0 ≤ unit) }
{
    match *sentence {
        Sentence::Structure(_) => None,
        Sentence::Register(misuse) => for_misuse(program, marks, unit, insn, misuse),
        Sentence::Memory(access) => for_access(program, marks, unit, access),
        Sentence::Call(misfit) => for_misfit(unit, misfit),
    }
}
