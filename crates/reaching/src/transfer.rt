//! Computes what is known after an instruction, from what is known before it.
ghost use Rattle.std.specs.Prelude.{◌≡◌, slice_set};
ghost use Rattle.insn.specs.declared.insn.Insn.{Insn};
ghost use Rattle.absval.specs.NumberSets.{within};
ghost use Rattle.verify.specs.Registers.{first_known};
ghost use Rattle.verify.specs.Calls.{known_behind};
ghost use Rattle.verify.specs.Transfer.{assigned};
ghost use Rattle.reaching.specs.Left.{left};

use crate::register::known_at;
use crate::{loads, stack_transfer};
use absval::{AbsVal, NumberSet};
use insn::{Insn, Operand, Reg, Size};
use range::Range;
use verify::AbsState;
use word::{Operation, Width};

/// Replaces what is known of register `r` by `value`.
fn write(registers: &mut [AbsVal; 11], r: Reg, value: AbsVal)
    ensures { registers.new ≡ slice_set registers.old r value }
{
    registers[r.number() as usize] = value;
}

/// Returns the state after register `dst` is set to a value. Returns a copy of the state if there is no value.
fn assigned(state: &AbsState, dst: Reg, value: Option<AbsVal>) -> AbsState
    ensures { result ≡ assigned state.now dst value }
{
    let mut left = state.copy();
    if let Some(value) = value {
        write(&mut left.registers, dst, value);
    }
    left
}

/// Returns what is known of register `dst` before an operation reads it. A move does not read it, and so gets the
/// number 0.
fn read_first(state: &AbsState, operation: Operation, dst: Reg) -> AbsVal
    ensures { result ≡ first_known state.now.registers operation dst }
{
    match operation {
        Operation::Move => AbsVal::Number(NumberSet::exactly(0)),
        _ => state.known(dst),
    }
}

/// Returns the state after an arithmetic operation.
fn computed(
    state: &AbsState,
    width: Width,
    operation: Operation,
    dst: Reg,
    operand: Operand,
) -> AbsState
    ensures { result ≡ left (Insn.Arithmetic width operation dst operand) state.now }
{
    let first = read_first(state, operation, dst);
    let made = absval::arithmetic(width, operation, first, state.operand(operand));
    assigned(state, dst, made)
}

/// Returns the state after a store of `source` at the address `base` plus `offset`.
fn stored(state: &AbsState, size: Size, base: Reg, offset: i16, source: Operand) -> AbsState
    ensures { result ≡ left (Insn.Store size base offset source) state.now }
{
    let mut left = state.copy();
    stack_transfer::store(
        &mut left.stack,
        size,
        state.known(base),
        offset,
        state.operand(source),
    );
    left
}

/// Records what is known of the registers after a call: r0 contains a number of the range, and r1 to r5 are unset.
fn put_result(registers: &mut [AbsVal; 11], range: Range)
    ensures { registers.new ≡ known_behind (within range) registers.old }
{
    registers[0] = AbsVal::Number(NumberSet::within(range));
    for r in 1..6 {
        registers[r] = AbsVal::Unset;
    }
}

/// Returns the state after a call of the helper with this number.
fn called(state: &AbsState, number: i32) -> AbsState
    ensures { result ≡ left (Insn.Call number) state.now }
{
    let helper = helper::helper_of(number);
    let mut left = state.copy();
    let target = known_at(&state.registers, 2);
    stack_transfer::call(
        &mut left.stack,
        helper,
        target,
        known_at(&state.registers, 3),
    );
    if let Some(helper) = helper {
        put_result(&mut left.registers, helper::result(helper));
    }
    left
}

/// Returns the state after an instruction, for an instruction that may run. A jump and the exit leave the state
/// unchanged.
pub fn left_by(insn: &Insn, state: &AbsState) -> AbsState
    ensures { result ≡ left insn.now state.now }
{
    match insn {
        Insn::Arithmetic {
            width,
            operation,
            dst,
            operand,
        } => computed(state, *width, *operation, *dst, *operand),
        Insn::Negate { width, dst } => {
            assigned(state, *dst, absval::negate(*width, state.known(*dst)))
        }
        Insn::SignExtend {
            width,
            part,
            dst,
            src,
        } => assigned(
            state,
            *dst,
            absval::sign_extend(*width, *part, state.known(*src)),
        ),
        Insn::Swap { order, size, dst } => {
            assigned(state, *dst, absval::swap(*order, *size, state.known(*dst)))
        }
        Insn::LoadImmediate { dst, number } => {
            let number = AbsVal::Number(NumberSet::exactly(*number));
            assigned(state, *dst, Some(number))
        }
        Insn::Load {
            size,
            dst,
            base,
            offset,
        } => assigned(
            state,
            *dst,
            loads::load(&state.stack, *size, state.known(*base), *offset),
        ),
        Insn::LoadSigned {
            part,
            dst,
            base,
            offset,
        } => assigned(
            state,
            *dst,
            loads::load_signed(&state.stack, *part, state.known(*base), *offset),
        ),
        Insn::Store {
            size,
            base,
            offset,
            source,
        } => stored(state, *size, *base, *offset, *source),
        Insn::Call { helper } => called(state, *helper),
        Insn::Jump { .. } | Insn::LongJump { .. } | Insn::Branch { .. } | Insn::Exit => {
            state.copy()
        }
    }
}
