//! Finds the register that a rejected instruction misuses: one that may be unset, or a pointer used in a way that is
//! not allowed.
ghost use Rattle.std.specs.Prelude.{◌≡◌, Some};
ghost use Rattle.std.specs.Option.{option_or};
ghost use Rattle.insn.specs.declared.insn.Insn.{Insn};
ghost use Rattle.verify.specs.Registers.{known_at};
ghost use Rattle.helper.specs.Reads.{of_operand, read_by};
ghost use Rattle.explain.specs.Shortfalls.{unset_if, unset_at, first_unset, pointer_if, pointer_at, first_pointer, compared_at, no_base, stored_at, store_misuse, pointer_misuse};

use crate::pointer_moves::sum_misuse;
use crate::sentence::{RegisterMisuse, Sentence};
use absval::AbsVal;
use helper::reads::{RegisterTriple, of_operand, read_by};
use insn::{Insn, Operand, Reg};
use verify::AbsState;

/// Returns the sentence that says that a register may be unset. Returns `None` if it is set, or there is no register.
fn unset_at(state: &AbsState, register: Option<Reg>) -> Option<Sentence>
    ensures { result ≡ unset_at state.now.registers register }
{
    let r = register?;
    match state.known(r) {
        AbsVal::Unset => Some(Sentence::Register(RegisterMisuse::Unset(r))),
        AbsVal::Number(_) | AbsVal::Pointer(..) => None,
    }
}

/// Returns the sentence that says that a register may be unset, for the first such register in `read`, or `None` if all
/// are set.
pub(crate) fn first_unset(state: &AbsState, read: RegisterTriple) -> Option<Sentence>
    ensures { result ≡ first_unset state.now.registers read }
{
    let [first, second, third] = read;
    if let Some(sentence) = unset_at(state, first) {
        return Some(sentence);
    }
    if let Some(sentence) = unset_at(state, second) {
        return Some(sentence);
    }
    unset_at(state, third)
}

/// Returns the sentence that says that an instruction must not compute with a pointer. Returns `None` if the register
/// holds no pointer, or there is no register.
fn pointer_at(state: &AbsState, register: Option<Reg>) -> Option<Sentence>
    ensures { result ≡ pointer_at state.now.registers register }
{
    let r = register?;
    let value = state.known(r);
    match value {
        AbsVal::Pointer(..) => Some(Sentence::Register(RegisterMisuse::Computed(r, value))),
        AbsVal::Unset | AbsVal::Number(_) => None,
    }
}

/// Returns the sentence that says that an instruction must not compute with a pointer, for the first register in `read`
/// that holds one. Returns `None` if none does.
fn first_pointer(state: &AbsState, read: RegisterTriple) -> Option<Sentence>
    ensures { result ≡ first_pointer state.now.registers read }
{
    let [first, second, third] = read;
    if let Some(sentence) = pointer_at(state, first) {
        return Some(sentence);
    }
    if let Some(sentence) = pointer_at(state, second) {
        return Some(sentence);
    }
    pointer_at(state, third)
}

/// Returns the sentence that says that a pointer cannot be compared. Returns `None` if the register holds no pointer,
/// or there is no register.
fn compared_at(state: &AbsState, register: Option<Reg>) -> Option<Sentence>
    ensures { result ≡ compared_at state.now.registers register }
{
    let r = register?;
    let value = state.known(r);
    match value {
        AbsVal::Pointer(..) => Some(Sentence::Register(RegisterMisuse::Compared(r, value))),
        AbsVal::Unset | AbsVal::Number(_) => None,
    }
}

/// Returns the sentence that says that a pointer cannot be compared, for the first of two compared operands that is a
/// pointer. Returns `None` if neither is.
fn compared(state: &AbsState, dst: Reg, operand: Operand) -> Option<Sentence>
    ensures { result ≡ option_or (compared_at state.now.registers (Some dst))
        (compared_at state.now.registers (of_operand operand)) }
{
    if let Some(sentence) = compared_at(state, Some(dst)) {
        return Some(sentence);
    }
    compared_at(state, of_operand(operand))
}

/// Returns the sentence that says that the base register of a load or store holds no pointer. The result is never
/// `None`.
fn no_base(state: &AbsState, base: Reg) -> Option<Sentence>
    ensures { result ≡ no_base state.now.registers base }
{
    let value = state.known(base);
    Some(Sentence::Register(RegisterMisuse::NoBase(base, value)))
}

/// Returns the sentence that says that a pointer is not stored as a whole: it needs 8 bytes, one offset and one
/// address. Returns `None` if what is stored is not in a register.
fn stored_at(state: &AbsState, base: Reg, source: Option<Reg>) -> Option<Sentence>
    ensures { result ≡ stored_at state.now.registers base source }
{
    let r = source?;
    let value = state.known(r);
    let at = state.known(base);
    Some(Sentence::Register(RegisterMisuse::Stored(r, value, base, at)))
}

/// Returns the sentence that says that a store misuses a pointer: the base register holds none, or the stored pointer
/// is not stored as a whole. Returns `None` if the base is a pointer and a constant is stored.
fn store_misuse(state: &AbsState, base: Reg, source: Option<Reg>) -> Option<Sentence>
    ensures { result ≡ store_misuse state.now.registers base source (known_at state.now.registers base) }
{
    match state.known(base) {
        AbsVal::Pointer(..) => stored_at(state, base, source),
        AbsVal::Unset | AbsVal::Number(_) => no_base(state, base),
    }
}

/// Returns the sentence that says how an instruction misuses a pointer, if the verifier rejects it for this reason. For
/// other instructions the sentence can be wrong. Returns `None` if no sentence fits the instruction.
pub(crate) fn pointer_misuse(insn: &Insn, state: &AbsState) -> Option<Sentence>
    ensures { result ≡ pointer_misuse insn.now state.now.registers }
{
    match insn {
        Insn::Arithmetic {
            width,
            operation,
            dst,
            operand,
        } => {
            let first = state.known(*dst);
            let second = state.operand(*operand);
            if let Some(sentence) = sum_misuse(
                (*width, *operation),
                *dst,
                *operand,
                first,
                second,
            ) {
                return Some(sentence);
            }
            first_pointer(state, read_by(insn))
        }
        Insn::Branch { dst, operand, .. } => compared(state, *dst, *operand),
        Insn::Load { base, .. } | Insn::LoadSigned { base, .. } => no_base(state, *base),
        Insn::Store { base, source, .. } => { store_misuse(state, *base, of_operand(*source)) }
        _ => first_pointer(state, read_by(insn)),
    }
}
