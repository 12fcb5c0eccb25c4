//! Decodes loads, stores, and the wide instruction that loads a 64-bit number, from the fields of a unit.
ghost use Rattle.std.specs.Prelude.{◌≡◌, ◌+◌, ◌≤◌, [], ◌∷◌, length, drop, IfOk, IfErr, Some, ℕ, List};
ghost use Rattle.insn.specs.Insn.{IsInsn};
ghost use Rattle.codec.specs.declared.form.Form.TheVariants as forms;
ghost use Rattle.codec.specs.Spelling.{spelling, size_code, part_code};
ghost use Rattle.codec.specs.Reading.{checks_of, first_fault, fields_of};

use crate::fault::CodecFault;
use crate::fields::{Fields, alone, read_fields, used};
use insn::{Insn, Operand, Size};
use word::Narrow;

/// Decodes a load that is not sign-extended. Fails with `Register` or `Reserved`.
pub fn load(size: Size, fields: Fields) -> Result<Insn, CodecFault>
    requires opcode { fields.opcode ≡ 0x61 + size_code size }
    ensures found { IfOk result (λ i. IsInsn i × (spelling i ≡ fields ∷ [])) }
    ensures fault { (behind : List ℕ) →
        IfErr result (λ e. first_fault (checks_of (forms.Load size) fields behind) ≡ Some e) }
{
    let dst = used(fields.dst)?;
    let base = used(fields.src)?;
    if fields.imm != 0 {
        return Err(CodecFault::Reserved);
    }
    Ok(Insn::Load {
        size,
        dst,
        base,
        offset: fields.offset.cast_signed(),
    })
}

/// Decodes a sign-extended load. Fails with `Register` or `Reserved`.
pub fn load_signed(part: Narrow, fields: Fields) -> Result<Insn, CodecFault>
    requires opcode { fields.opcode ≡ 0x81 + part_code part }
    ensures found { IfOk result (λ i. IsInsn i × (spelling i ≡ fields ∷ [])) }
    ensures fault { (behind : List ℕ) →
        IfErr result (λ e. first_fault (checks_of (forms.LoadSigned part) fields behind) ≡ Some e) }
{
    let dst = used(fields.dst)?;
    let base = used(fields.src)?;
    if fields.imm != 0 {
        return Err(CodecFault::Reserved);
    }
    Ok(Insn::LoadSigned {
        part,
        dst,
        base,
        offset: fields.offset.cast_signed(),
    })
}

/// Decodes a store of a number. Fails with `Register` or `Reserved`.
pub fn store_immediate(size: Size, fields: Fields) -> Result<Insn, CodecFault>
    requires opcode { fields.opcode ≡ 0x62 + size_code size }
    ensures found { IfOk result (λ i. IsInsn i × (spelling i ≡ fields ∷ [])) }
    ensures fault { (behind : List ℕ) →
        IfErr result (λ e. first_fault (checks_of (forms.StoreImmediate size) fields behind) ≡ Some e) }
{
    let base = alone(fields)?;
    Ok(Insn::Store {
        size,
        base,
        offset: fields.offset.cast_signed(),
        source: Operand::Immediate(fields.imm.cast_signed()),
    })
}

/// Decodes a store of a register. Fails with `Register` or `Reserved`.
pub fn store_register(size: Size, fields: Fields) -> Result<Insn, CodecFault>
    requires opcode { fields.opcode ≡ 0x63 + size_code size }
    ensures found { IfOk result (λ i. IsInsn i × (spelling i ≡ fields ∷ [])) }
    ensures fault { (behind : List ℕ) →
        IfErr result (λ e. first_fault (checks_of (forms.StoreRegister size) fields behind) ≡ Some e) }
{
    let base = used(fields.dst)?;
    let src = used(fields.src)?;
    if fields.imm != 0 {
        return Err(CodecFault::Reserved);
    }
    Ok(Insn::Store {
        size,
        base,
        offset: fields.offset.cast_signed(),
        source: Operand::Register(src),
    })
}

/// Decodes the wide instruction, which loads a 64-bit number (RFC 9669, section 3.2). `fields` are those of its first
/// unit, and `behind` begins with its second. Fails with `Register`, `LeftOut`, `Reserved` or `WideCut`.
pub fn load_immediate(fields: Fields, behind: &[u8]) -> Result<Insn, CodecFault>
    requires opcode { fields.opcode ≡ 0x18 }
    ensures found { IfOk result (λ i. IsInsn i × (8 ≤ length behind.now)
        × (spelling i ≡ fields ∷ fields_of behind.now ∷ [])) }
    ensures fault { IfErr result (λ e. first_fault (checks_of forms.LoadImmediate fields behind.now) ≡ Some e) }
{
    let dst = used(fields.dst)?;
    if fields.src != 0 {
        return Err(CodecFault::LeftOut);
    }
    if fields.offset != 0 {
        return Err(CodecFault::Reserved);
    }
    if behind.len() < 8 {
        return Err(CodecFault::WideCut);
    }
    let second = read_fields(behind);
    if second.opcode != 0 || second.dst != 0 || second.src != 0 || second.offset != 0 {
        return Err(CodecFault::Reserved);
    }
    Ok(Insn::LoadImmediate {
        dst,
        number: (second.imm as u64) << 32 | fields.imm as u64,
    })
}
