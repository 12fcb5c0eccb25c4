//! Decodes jumps, conditional jumps, calls and exits from the fields of a unit.
ghost use Rattle.std.specs.Prelude.{◌≡◌, ◌+◌, [], ◌∷◌, IfOk, IfErr, Some, ℕ, List};
ghost use Rattle.insn.specs.Insn.{IsInsn};
ghost use Rattle.codec.specs.declared.form.Form.TheVariants as forms;
ghost use Rattle.codec.specs.Spelling.{spelling, jump_class, condition_code};
ghost use Rattle.codec.specs.Reading.{checks_of, first_fault};

use crate::fault::CodecFault;
use crate::fields::{Fields, alone, used};
use insn::{Insn, Operand};
use word::{Condition, Width};

/// Decodes a jump whose distance is in the `offset` field. Fails with `Reserved`.
pub fn near(fields: Fields) -> Result<Insn, CodecFault>
    requires opcode { fields.opcode ≡ 0x05 }
    ensures found { IfOk result (λ i. IsInsn i × (spelling i ≡ fields ∷ [])) }
    ensures fault { (behind : List ℕ) → IfErr result (λ e. first_fault (checks_of forms.Jump fields behind) ≡ Some e) }
{
    if fields.dst != 0 || fields.src != 0 || fields.imm != 0 {
        return Err(CodecFault::Reserved);
    }
    Ok(Insn::Jump {
        distance: fields.offset.cast_signed(),
    })
}

/// Decodes a jump whose distance is in the `imm` field. Fails with `Reserved`.
pub fn long(fields: Fields) -> Result<Insn, CodecFault>
    requires opcode { fields.opcode ≡ 0x06 }
    ensures found { IfOk result (λ i. IsInsn i × (spelling i ≡ fields ∷ [])) }
    ensures fault { (behind : List ℕ) →
        IfErr result (λ e. first_fault (checks_of forms.LongJump fields behind) ≡ Some e) }
{
    if fields.dst != 0 || fields.src != 0 || fields.offset != 0 {
        return Err(CodecFault::Reserved);
    }
    Ok(Insn::LongJump {
        distance: fields.imm.cast_signed(),
    })
}

/// Decodes a conditional jump that compares a register with a number. Fails with `Register` or `Reserved`.
pub fn branch_immediate(
    width: Width,
    condition: Condition,
    fields: Fields,
) -> Result<Insn, CodecFault>
    requires opcode { fields.opcode ≡ condition_code condition + jump_class width }
    ensures found { IfOk result (λ i. IsInsn i × (spelling i ≡ fields ∷ [])) }
    ensures fault { (behind : List ℕ) →
        IfErr result (λ e. first_fault (checks_of (forms.BranchImmediate width condition) fields behind) ≡ Some e) }
{
    let dst = alone(fields)?;
    Ok(Insn::Branch {
        width,
        condition,
        dst,
        operand: Operand::Immediate(fields.imm.cast_signed()),
        distance: fields.offset.cast_signed(),
    })
}

/// Decodes a conditional jump that compares two registers. Fails with `Register` or `Reserved`.
pub fn branch_register(
    width: Width,
    condition: Condition,
    fields: Fields,
) -> Result<Insn, CodecFault>
    requires opcode { fields.opcode ≡ condition_code condition + 8 + jump_class width }
    ensures found { IfOk result (λ i. IsInsn i × (spelling i ≡ fields ∷ [])) }
    ensures fault { (behind : List ℕ) →
        IfErr result (λ e. first_fault (checks_of (forms.BranchRegister width condition) fields behind) ≡ Some e) }
{
    let dst = used(fields.dst)?;
    let src = used(fields.src)?;
    if fields.imm != 0 {
        return Err(CodecFault::Reserved);
    }
    Ok(Insn::Branch {
        width,
        condition,
        dst,
        operand: Operand::Register(src),
        distance: fields.offset.cast_signed(),
    })
}

/// Decodes a call of a helper. Fails with `LeftOut` if the `src` field selects another kind of call, which is not
/// supported, and otherwise with `Reserved`.
pub fn call(fields: Fields) -> Result<Insn, CodecFault>
    requires opcode { fields.opcode ≡ 0x85 }
    ensures found { IfOk result (λ i. IsInsn i × (spelling i ≡ fields ∷ [])) }
    ensures fault { (behind : List ℕ) → IfErr result (λ e. first_fault (checks_of forms.Call fields behind) ≡ Some e) }
{
    if fields.src != 0 {
        return Err(CodecFault::LeftOut);
    }
    if fields.dst != 0 || fields.offset != 0 {
        return Err(CodecFault::Reserved);
    }
    Ok(Insn::Call {
        helper: fields.imm.cast_signed(),
    })
}

/// Decodes an exit. Fails with `Reserved`.
pub fn exit(fields: Fields) -> Result<Insn, CodecFault>
    requires opcode { fields.opcode ≡ 0x95 }
    ensures found { IfOk result (λ i. IsInsn i × (spelling i ≡ fields ∷ [])) }
    ensures fault { (behind : List ℕ) → IfErr result (λ e. first_fault (checks_of forms.Exit fields behind) ≡ Some e) }
{
    if fields.dst != 0 || fields.src != 0 || fields.offset != 0 || fields.imm != 0 {
        return Err(CodecFault::Reserved);
    }
    Ok(Insn::Exit)
}
