//! Checks of single instructions, and what each does to the abstract state.
ghost use Rattle.std.specs.Prelude.{◌≡◌, ◌≢◌, [], ◌∷◌, Some, None, is_none, option_map, slice_set, IfOk, if◌then◌else◌};
ghost use Rattle.std.specs.Result.{result_err};
ghost use Rattle.absval.specs.Contains.{is_number};
ghost use Rattle.absval.specs.Table.{moved, combined};
ghost use Rattle.verify.specs.Registers.{known_at, operand_known};
ghost use Rattle.verify.specs.Reasons.{first_reason, is_unset, made_checks, write_checks, compare_checks, exit_checks, unless, outcome};
ghost use Rattle.verify.specs.Instructions.{IsStraight};
ghost use Rattle.verify.specs.MemoryTable.{unset_or, store_refused};
ghost use Rattle.verify.specs.Transfer.{assigned, stored, stepped};

use crate::comparison::Comparison;
use crate::reason::Reason;
use crate::state::AbsState;
use crate::{calls, memory, registers};
use absmem::AbsStack;
use absval::{AbsVal, NumberSet};
use insn::{Insn, Operand, Reg, Size};
use word::{ByteOrder, Narrow, Operation, SwapSize, Width};

/// Checks that a value that an instruction reads is set. Fails with `Unset`.
fn check_set(value: &AbsVal) -> Result<(), Reason>
    ensures { result_err result ≡ first_reason ((is_unset value.now, Reason.Unset) ∷ []) }
{
    match value {
        AbsVal::Unset => Err(Reason::Unset),
        AbsVal::Number(_) | AbsVal::Pointer(..) => Ok(()),
    }
}

/// Checks that a value that an instruction compares is a number. Fails with `PointerUse`.
fn check_number(value: AbsVal) -> Result<(), Reason>
    ensures { result_err result ≡ (if is_number value then None else Some Reason.PointerUse) }
{
    match value {
        AbsVal::Number(_) => Ok(()),
        AbsVal::Unset | AbsVal::Pointer(..) => Err(Reason::PointerUse),
    }
}

/// Checks that the register that an instruction writes is not r10, the frame pointer. Fails with `FrameWrite`.
fn check_writable(dst: Reg) -> Result<(), Reason>
    ensures { result_err result ≡ first_reason (write_checks dst) }
{
    if dst.number() == 10 {
        return Err(Reason::FrameWrite);
    }
    Ok(())
}

/// Replaces what is known of register `dst` by `value`.
fn put(state: &mut AbsState, dst: Reg, value: AbsVal)
    ensures { state.new ≡ assigned state.old dst (Some value) }
{
    registers::write(&mut state.registers, dst, value);
}

/// Replaces what is known of register `dst` by the result `made` of an operation. Fails if the operand `value` may be
/// unset, if `dst` is r10, or if there is no result because the operation must not be used on a pointer.
fn put_made(
    state: &mut AbsState,
    dst: Reg,
    value: &AbsVal,
    made: Option<AbsVal>,
) -> Result<(), Reason>
    ensures { outcome result state.new
        ≡ unless (first_reason (made_checks dst value.now made)) (assigned state.old dst made) }
{
    check_set(value)?;
    check_writable(dst)?;
    let Some(value) = made else {
        return Err(Reason::PointerUse);
    };
    put(state, dst, value);
    Ok(())
}

/// Checks an operation, which may be a move, on register `dst` and an operand, and replaces what is known of `dst` by
/// its result. Fails with `Unset`, `FrameWrite` or `PointerUse`.
fn arithmetic(
    state: &mut AbsState,
    width: Width,
    operation: Operation,
    dst: Reg,
    operand: Operand,
) -> Result<(), Reason>
    ensures { outcome result state.new ≡ stepped (Insn.Arithmetic width operation dst operand) state.old }
{
    if let Operation::Move = operation {
        return move_operand(state, width, dst, operand);
    }
    combine(state, width, operation, dst, operand)
}

/// Checks a move of an operand to register `dst`, and replaces what is known of `dst`. Fails with `Unset`, `FrameWrite`
/// or `PointerUse`.
fn move_operand(
    state: &mut AbsState,
    width: Width,
    dst: Reg,
    operand: Operand,
) -> Result<(), Reason>
    ensures { outcome result state.new ≡ stepped (Insn.Arithmetic width Operation.Move dst operand) state.old }
{
    match operand {
        Operand::Immediate(number) => move_value(state, width, dst, absval::immediate(number)),
        Operand::Register(src) => {
            let value = registers::read(&state.registers, src);
            move_value(state, width, dst, value)
        }
    }
}

/// Checks a move of `value` to register `dst`, and replaces what is known of `dst`. Fails with `Unset`, `FrameWrite` or
/// `PointerUse`.
#[inline(always)]
fn move_value(state: &mut AbsState, width: Width, dst: Reg, value: AbsVal) -> Result<(), Reason>
    ensures { outcome result state.new ≡
        unless (first_reason (made_checks dst value (moved width value))) (assigned state.old dst (moved width value)) }
{
    let made = absval::arithmetic(width, Operation::Move, value, value);
    put_made(state, dst, &value, made)
}

/// Checks an operation on register `dst` and an operand, and replaces what is known of `dst` by its result. The
/// operation must not be a move. Fails with `Unset`, `FrameWrite` or `PointerUse`.
fn combine(
    state: &mut AbsState,
    width: Width,
    operation: Operation,
    dst: Reg,
    operand: Operand,
) -> Result<(), Reason>
    requires { operation ≢ Operation.Move }
    ensures { outcome result state.new ≡ stepped (Insn.Arithmetic width operation dst operand) state.old }
{
    let first = registers::first(&state.registers, operation, dst);
    let second = registers::operand(&state.registers, operand);
    check_set(&first)?;
    check_set(&second)?;
    check_writable(dst)?;
    combine_at(&mut state.registers, dst, width, operation, second)
}

/// Replaces what is known of register `dst` by the result of an operation on it and `value`. Fails with `PointerUse` if
/// the operation must not be used on them. The operation must not be a move.
#[inline(always)]
fn combine_at(
    registers: &mut [AbsVal; 11],
    dst: Reg,
    width: Width,
    operation: Operation,
    value: AbsVal,
) -> Result<(), Reason>
    requires { operation ≢ Operation.Move }
    ensures refused { result_err result ≡
        (if is_none (combined width operation (known_at registers.old dst) value) then Some Reason.PointerUse
        else None) }
    ensures written { IfOk result (λ _.
        option_map (λ made. slice_set registers.old dst made)
        (combined width operation (known_at registers.old dst) value) ≡ Some registers.new) }
{
    combine_into(
        &mut registers[dst.number() as usize],
        width,
        operation,
        value,
    )
}

/// Replaces what is known of a register by the result of an operation on it and `value`. Fails with `PointerUse` if the
/// operation must not be used on them. Numbers are changed in place, for speed.
#[inline(always)]
fn combine_into(
    register: &mut AbsVal,
    width: Width,
    operation: Operation,
    value: AbsVal,
) -> Result<(), Reason>
    requires { operation ≢ Operation.Move }
    ensures refused { result_err result ≡
        (if is_none (combined width operation register.old value) then Some Reason.PointerUse else None) }
    ensures written { IfOk result (λ _. Some register.new ≡ combined width operation register.old value) }
{
    match (&mut *register, value) {
        (AbsVal::Number(first), AbsVal::Number(second)) => {
            *first = NumberSet::operate(width, operation, *first, second);
        }
        (AbsVal::Pointer(region, offsets), _) => {
            let pointer = AbsVal::Pointer(*region, *offsets);
            let Some(moved) = absval::arithmetic(width, operation, pointer, value) else {
                return Err(Reason::PointerUse);
            };
            *register = moved;
        }
        _ => return Err(Reason::PointerUse),
    }
    Ok(())
}

/// Checks a negation of register `dst`, and replaces what is known of it by the result. Fails with `Unset`,
/// `FrameWrite` or `PointerUse`.
fn negate(state: &mut AbsState, width: Width, dst: Reg) -> Result<(), Reason>
    ensures { outcome result state.new ≡ stepped (Insn.Negate width dst) state.old }
{
    let value = registers::read(&state.registers, dst);
    let made = absval::negate(width, value);
    put_made(state, dst, &value, made)
}

/// Checks a sign extension of the low bytes of register `src`, and replaces what is known of register `dst` by the
/// result. Fails with `Unset`, `FrameWrite` or `PointerUse`.
fn sign_extend(
    state: &mut AbsState,
    width: Width,
    part: Narrow,
    dst: Reg,
    src: Reg,
) -> Result<(), Reason>
    ensures { outcome result state.new ≡ stepped (Insn.SignExtend width part dst src) state.old }
{
    let value = registers::read(&state.registers, src);
    let made = absval::sign_extend(width, part, value);
    put_made(state, dst, &value, made)
}

/// Checks a change of the byte order of register `dst`, and replaces what is known of it by the result. Fails with
/// `Unset`, `FrameWrite` or `PointerUse`.
fn swap(state: &mut AbsState, order: ByteOrder, size: SwapSize, dst: Reg) -> Result<(), Reason>
    ensures { outcome result state.new ≡ stepped (Insn.Swap order size dst) state.old }
{
    let value = registers::read(&state.registers, dst);
    let made = absval::swap(order, size, value);
    put_made(state, dst, &value, made)
}

/// Checks a move of a 64-bit number to register `dst`, and replaces what is known of `dst`. Fails with `FrameWrite`.
fn load_immediate(state: &mut AbsState, dst: Reg, number: u64) -> Result<(), Reason>
    ensures { outcome result state.new ≡ stepped (Insn.LoadImmediate dst number) state.old }
{
    check_writable(dst)?;
    put(state, dst, AbsVal::Number(NumberSet::exactly(number)));
    Ok(())
}

/// Checks a load into register `dst`, and replaces what is known of `dst` by the result: a number, or a pointer that
/// was stored on the stack. Fails with `Unset`, `FrameWrite`, `PointerUse`, `Bounds` or `StackUnset`.
fn load(state: &mut AbsState, size: Size, dst: Reg, base: Reg, offset: i16) -> Result<(), Reason>
    ensures { outcome result state.new ≡ stepped (Insn.Load size dst base offset) state.old }
{
    let pointer = registers::at(&state.registers, base);
    check_set(pointer)?;
    check_writable(dst)?;
    let (region, offsets) = memory::pointer_of(pointer)?;
    let register = &mut state.registers[dst.number() as usize];
    memory::load_into(register, &state.stack, size, region, offsets, offset)
}

/// Checks a sign-extended load into register `dst`, and replaces what is known of `dst` by the result. Fails with
/// `Unset`, `FrameWrite`, `PointerUse`, `Bounds` or `StackUnset`.
fn load_signed(
    state: &mut AbsState,
    part: Narrow,
    dst: Reg,
    base: Reg,
    offset: i16,
) -> Result<(), Reason>
    ensures { outcome result state.new ≡ stepped (Insn.LoadSigned part dst base offset) state.old }
{
    let pointer = registers::read(&state.registers, base);
    check_set(&pointer)?;
    check_writable(dst)?;
    let value = memory::load_signed(&state.stack, part, pointer, offset)?;
    put(state, dst, value);
    Ok(())
}

/// Checks a store of `value` at `base` plus `offset`, and records it on the stack. Both are passed by reference,
/// because few need to be copied. Fails with `Unset`, `PointerUse`, `ContextWrite` or `Bounds`.
#[inline(always)]
fn store_value(
    stack: &mut AbsStack,
    size: Size,
    base: &AbsVal,
    offset: i16,
    value: &AbsVal,
) -> Result<(), Reason>
    ensures { outcome result stack.new
        ≡ unless (unset_or base.now (unset_or value.now (store_refused size base.now offset value.now)))
        (stored size base.now offset value.now stack.old) }
{
    check_set(base)?;
    check_set(value)?;
    memory::store(stack, size, base, offset, value)
}

/// Checks a store of a number or a pointer at `base` plus `offset`, and records it on the stack. Fails with `Unset`,
/// `PointerUse`, `ContextWrite` or `Bounds`.
fn store(
    state: &mut AbsState,
    size: Size,
    base: Reg,
    offset: i16,
    source: Operand,
) -> Result<(), Reason>
    ensures { outcome result state.new ≡ stepped (Insn.Store size base offset source) state.old }
{
    let pointer = registers::at(&state.registers, base);
    check_set(pointer)?;
    match source {
        Operand::Immediate(_) => {
            let found = memory::pointer_of(pointer)?;
            memory::store_number(&mut state.stack, size, found, offset)
        }
        Operand::Register(src) => {
            let value = registers::at(&state.registers, src);
            store_value(&mut state.stack, size, pointer, offset, value)
        }
    }
}

/// Checks an instruction that always continues with the next one, and changes the abstract state to what is known after
/// it. Fails with the reason for which the instruction is rejected.
pub fn straight(state: &mut AbsState, insn: &Insn) -> Result<(), Reason>
    requires { IsStraight insn.now }
    ensures { outcome result state.new ≡ stepped insn.now state.old }
{
    match insn {
        Insn::Arithmetic {
            width,
            operation,
            dst,
            operand,
        } => arithmetic(state, *width, *operation, *dst, *operand),
        Insn::Negate { width, dst } => negate(state, *width, *dst),
        Insn::SignExtend {
            width,
            part,
            dst,
            src,
        } => sign_extend(state, *width, *part, *dst, *src),
        Insn::Swap { order, size, dst } => swap(state, *order, *size, *dst),
        Insn::LoadImmediate { dst, number } => load_immediate(state, *dst, *number),
        Insn::Load {
            size,
            dst,
            base,
            offset,
        } => load(state, *size, *dst, *base, *offset),
        Insn::LoadSigned {
            part,
            dst,
            base,
            offset,
        } => load_signed(state, *part, *dst, *base, *offset),
        Insn::Store {
            size,
            base,
            offset,
            source,
        } => store(state, *size, *base, *offset, *source),
        Insn::Call { helper } => calls::call(state, *helper),
        Insn::Jump { .. } | Insn::LongJump { .. } | Insn::Branch { .. } | Insn::Exit => {
            unreachable!()
        }
    }
}

/// Checks that the two values that a conditional jump compares are set and are numbers. Fails with `Unset` or
/// `PointerUse`.
pub fn compare(state: &AbsState, compared: &Comparison) -> Result<(), Reason>
    ensures { result_err result
        ≡ first_reason (compare_checks (known_at state.now.registers compared.now.dst)
        (operand_known state.now.registers compared.now.operand)) }
{
    let first = registers::read(&state.registers, compared.dst);
    let second = registers::operand(&state.registers, compared.operand);
    check_set(&first)?;
    check_set(&second)?;
    check_number(first)?;
    check_number(second)
}

/// Checks that the program may end with what is known of r0: it must be a number. Fails with `Unset` or `ExitPointer`.
pub fn exit(state: &AbsState) -> Result<(), Reason>
    ensures { result_err result ≡ first_reason (exit_checks (known_at state.now.registers 0)) }
{
    match state.registers[0] {
        AbsVal::Number(_) => Ok(()),
        AbsVal::Unset => Err(Reason::Unset),
        AbsVal::Pointer(..) => Err(Reason::ExitPointer),
    }
}
