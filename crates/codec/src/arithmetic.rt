//! Decodes arithmetic instructions from the fields of a unit: operations, divisions, moves, negations and byte swaps.
ghost use Rattle.std.specs.Prelude.{◌≡◌, ◌≤◌, ◌<◌, ◌+◌, ◌*◌, true, false, [], ◌∷◌, IfOk, IfErr, Some, ℕ, List};
ghost use Rattle.insn.specs.Insn.{IsInsn};
ghost use Rattle.word.specs.Arithmetic.{swapped_bytes};
ghost use Rattle.codec.specs.declared.form.Form.TheVariants as forms;
ghost use Rattle.codec.specs.Spelling.{spelling, alu_class, operation_code, operation_offset, swap_code};
ghost use Rattle.codec.specs.Form.{divided, IsMoved};
ghost use Rattle.codec.specs.Reading.{checks_of, first_fault, is_no_part, is_no_swap};

use crate::fault::CodecFault;
use crate::fields::{Fields, alone, used};
use crate::form::Division;
use insn::{Insn, Operand};
use word::{ByteOrder, Narrow, Operation, SwapSize, Width};

/// Decodes an arithmetic instruction whose operand is a number. Fails with `Register` or `Reserved`.
pub fn immediate(width: Width, operation: Operation, fields: Fields) -> Result<Insn, CodecFault>
    requires opcode { fields.opcode ≡ operation_code operation + alu_class width }
    requires offset { operation_offset operation ≡ 0 }
    ensures found { IfOk result (λ i. IsInsn i × (spelling i ≡ fields ∷ [])) }
    ensures fault { (behind : List ℕ) →
        IfErr result (λ e. first_fault (checks_of (forms.Immediate width operation) fields behind) ≡ Some e) }
{
    let dst = alone(fields)?;
    if fields.offset != 0 {
        return Err(CodecFault::Reserved);
    }
    Ok(Insn::Arithmetic {
        width,
        operation,
        dst,
        operand: Operand::Immediate(fields.imm.cast_signed()),
    })
}

/// Decodes an arithmetic instruction whose operand is a register. Fails with `Register` or `Reserved`.
pub fn register(width: Width, operation: Operation, fields: Fields) -> Result<Insn, CodecFault>
    requires opcode { fields.opcode ≡ operation_code operation + 8 + alu_class width }
    requires offset { operation_offset operation ≡ 0 }
    ensures found { IfOk result (λ i. IsInsn i × (spelling i ≡ fields ∷ [])) }
    ensures fault { (behind : List ℕ) →
        IfErr result (λ e. first_fault (checks_of (forms.Register width operation) fields behind) ≡ Some e) }
{
    let dst = used(fields.dst)?;
    let src = used(fields.src)?;
    if fields.offset != 0 || fields.imm != 0 {
        return Err(CodecFault::Reserved);
    }
    Ok(Insn::Arithmetic {
        width,
        operation,
        dst,
        operand: Operand::Register(src),
    })
}

/// Returns the division that the `offset` field selects: unsigned if it is 0, signed if it is 1 (RFC 9669, section
/// 4.1). Fails with `Operand` for any other value.
fn chosen(division: Division, offset: u16) -> Result<Operation, CodecFault>
    ensures found { IfOk result (λ o. (offset ≤ 1) × (o ≡ divided division offset)) }
    ensures fault { IfErr result (λ e. (e ≡ CodecFault.Operand) × (1 < offset)) }
{
    match offset {
        0 => Ok(match division {
            Division::Quotient => Operation::Div,
            Division::Remainder => Operation::Mod,
        }),
        1 => Ok(match division {
            Division::Quotient => Operation::SignedDiv,
            Division::Remainder => Operation::SignedMod,
        }),
        _ => Err(CodecFault::Operand),
    }
}

/// Decodes a division by a number. Fails with `Register`, `Operand` or `Reserved`.
pub fn divide_immediate(
    width: Width,
    division: Division,
    fields: Fields,
) -> Result<Insn, CodecFault>
    requires opcode { fields.opcode ≡ operation_code (divided division 0) + alu_class width }
    ensures found { IfOk result (λ i. IsInsn i × (spelling i ≡ fields ∷ [])) }
    ensures fault { (behind : List ℕ) →
        IfErr result (λ e. first_fault (checks_of (forms.DivideImmediate width division) fields behind) ≡ Some e) }
{
    let dst = used(fields.dst)?;
    let operation = chosen(division, fields.offset)?;
    if fields.src != 0 {
        return Err(CodecFault::Reserved);
    }
    Ok(Insn::Arithmetic {
        width,
        operation,
        dst,
        operand: Operand::Immediate(fields.imm.cast_signed()),
    })
}

/// Decodes a division by a register. Fails with `Register`, `Operand` or `Reserved`.
pub fn divide_register(width: Width, division: Division, fields: Fields) -> Result<Insn, CodecFault>
    requires opcode { fields.opcode ≡ operation_code (divided division 0) + 8 + alu_class width }
    ensures found { IfOk result (λ i. IsInsn i × (spelling i ≡ fields ∷ [])) }
    ensures fault { (behind : List ℕ) →
        IfErr result (λ e. first_fault (checks_of (forms.DivideRegister width division) fields behind) ≡ Some e) }
{
    let dst = used(fields.dst)?;
    let src = used(fields.src)?;
    let operation = chosen(division, fields.offset)?;
    if fields.imm != 0 {
        return Err(CodecFault::Reserved);
    }
    Ok(Insn::Arithmetic {
        width,
        operation,
        dst,
        operand: Operand::Register(src),
    })
}

/// Returns which low bits of the source a move sign-extends, as its `offset` field says: 8, 16 or 32. Returns `None` if
/// the field is 0, for a plain move. Fails with `Operand` for any other value, and for 32 in a 32-bit move.
fn part(width: Width, offset: u16) -> Result<Option<Narrow>, CodecFault>
    ensures found { IfOk result (λ p. (is_no_part width offset ≡ false) × IsMoved width p offset) }
    ensures fault { IfErr result (λ e. (e ≡ CodecFault.Operand) × (is_no_part width offset ≡ true)) }
{
    match offset {
        0 => Ok(None),
        8 => Ok(Some(Narrow::Byte)),
        16 => Ok(Some(Narrow::Half)),
        32 => match width {
            Width::W32 => Err(CodecFault::Operand),
            Width::W64 => Ok(Some(Narrow::Word)),
        },
        _ => Err(CodecFault::Operand),
    }
}

/// Decodes a move from a register, plain or with sign extension. Fails with `Register`, `Operand` or `Reserved`.
pub fn move_register(width: Width, fields: Fields) -> Result<Insn, CodecFault>
    requires opcode { fields.opcode ≡ 0xb8 + alu_class width }
    ensures found { IfOk result (λ i. IsInsn i × (spelling i ≡ fields ∷ [])) }
    ensures fault { (behind : List ℕ) →
        IfErr result (λ e. first_fault (checks_of (forms.MoveRegister width) fields behind) ≡ Some e) }
{
    let dst = used(fields.dst)?;
    let src = used(fields.src)?;
    let part = part(width, fields.offset)?;
    if fields.imm != 0 {
        return Err(CodecFault::Reserved);
    }
    Ok(match part {
        None => Insn::Arithmetic {
            width,
            operation: Operation::Move,
            dst,
            operand: Operand::Register(src),
        },
        Some(part) => Insn::SignExtend {
            width,
            part,
            dst,
            src,
        },
    })
}

/// Decodes the negation of a register. Fails with `Register` or `Reserved`.
pub fn negate(width: Width, fields: Fields) -> Result<Insn, CodecFault>
    requires opcode { fields.opcode ≡ 0x80 + alu_class width }
    ensures found { IfOk result (λ i. IsInsn i × (spelling i ≡ fields ∷ [])) }
    ensures fault { (behind : List ℕ) →
        IfErr result (λ e. first_fault (checks_of (forms.Negate width) fields behind) ≡ Some e) }
{
    let dst = alone(fields)?;
    if fields.imm != 0 || fields.offset != 0 {
        return Err(CodecFault::Reserved);
    }
    Ok(Insn::Negate { width, dst })
}

/// Returns the size of a byte swap that the `imm` field selects: 16, 32 or 64 bits (RFC 9669, section 4.2). Fails with
/// `Operand` for any other value.
fn swap_size(bits: u32) -> Result<SwapSize, CodecFault>
    ensures found { IfOk result (λ s. (is_no_swap bits ≡ false) × (bits ≡ 8 * swapped_bytes s)) }
    ensures fault { IfErr result (λ e. (e ≡ CodecFault.Operand) × (is_no_swap bits ≡ true)) }
{
    match bits {
        16 => Ok(SwapSize::Half),
        32 => Ok(SwapSize::Word),
        64 => Ok(SwapSize::Double),
        _ => Err(CodecFault::Operand),
    }
}

/// Decodes a byte swap of a register. Fails with `Register`, `Operand` or `Reserved`.
pub fn swap(order: ByteOrder, fields: Fields) -> Result<Insn, CodecFault>
    requires opcode { fields.opcode ≡ swap_code order }
    ensures found { IfOk result (λ i. IsInsn i × (spelling i ≡ fields ∷ [])) }
    ensures fault { (behind : List ℕ) →
        IfErr result (λ e. first_fault (checks_of (forms.Swap order) fields behind) ≡ Some e) }
{
    let dst = used(fields.dst)?;
    let size = swap_size(fields.imm)?;
    if fields.src != 0 || fields.offset != 0 {
        return Err(CodecFault::Reserved);
    }
    Ok(Insn::Swap { order, size, dst })
}
