//! Writes instructions as text.

ghost use Rattle.std.specs.Prelude.{◌≡◌, ◌++◌, [], ◌∷◌, codes, decimal, string_bytes, OnOk};
ghost use Rattle.std.specs.Fmt.{signed_decimal};
ghost use Rattle.asm.specs.Printing.{register_text, operand_text, signed_text, place_text, word_of, operands_of, operands_text, insn_text, line_text};

use crate::mnemonic::{Mnemonic, name};
use crate::text_parts::{put, put_number, put_unsigned};
use insn::{Insn, Operand, Reg};
use std::alloc::AllocError;

/// Appends a comma and a space.
fn put_comma(out: &mut String) -> Result<(), AllocError>
    ensures { OnOk result (string_bytes out.new ≡ string_bytes out.old ++ codes ", ") }
{
    put(out, ", ")
}

/// Appends a register, such as `r1`.
fn put_register(out: &mut String, reg: Reg) -> Result<(), AllocError>
    ensures { OnOk result (string_bytes out.new ≡ string_bytes out.old ++ register_text reg) }
{
    put(out, "r")?;
    put_unsigned(out, reg.number() as u64)
}

/// Appends an operand: a register, such as `r1`, or a number.
fn put_operand(out: &mut String, operand: Operand) -> Result<(), AllocError>
    ensures { OnOk result (string_bytes out.new ≡ string_bytes out.old ++ operand_text operand) }
{
    match operand {
        Operand::Register(reg) => put_register(out, reg),
        Operand::Immediate(imm) => put_number(out, imm as i64),
    }
}

/// Appends a number with its sign, such as `+8` or `-8`.
fn put_signed(out: &mut String, number: i64) -> Result<(), AllocError>
    ensures { OnOk result (string_bytes out.new ≡ string_bytes out.old ++ signed_text number) }
{
    if number >= 0 {
        put(out, "+")?;
    }
    put_number(out, number)
}

/// Appends a memory operand, such as `[r1+8]` or `[r10-8]`.
fn put_place(out: &mut String, base: Reg, offset: i16) -> Result<(), AllocError>
    ensures { OnOk result (string_bytes out.new ≡ string_bytes out.old ++ place_text base offset) }
{
    put(out, "[")?;
    put_register(out, base)?;
    put_signed(out, offset as i64)?;
    put(out, "]")
}

/// Returns the mnemonic of an instruction.
fn mnemonic_for(insn: &Insn) -> Mnemonic
    ensures { result ≡ word_of insn.now }
{
    match insn {
        Insn::Arithmetic {
            width,
            operation,
            ..
        } => Mnemonic::Arithmetic(*width, *operation),
        Insn::Negate { width, .. } => Mnemonic::Negate(*width),
        Insn::SignExtend { width, part, .. } => Mnemonic::SignExtend(*width, *part),
        Insn::Swap { order, size, .. } => Mnemonic::Swap(*order, *size),
        Insn::LoadImmediate { .. } => Mnemonic::LoadImmediate,
        Insn::Jump { .. } => Mnemonic::Jump,
        Insn::LongJump { .. } => Mnemonic::LongJump,
        Insn::Branch {
            width,
            condition,
            ..
        } => Mnemonic::Branch(*width, *condition),
        Insn::Load { size, .. } => Mnemonic::Load(*size),
        Insn::LoadSigned { part, .. } => Mnemonic::LoadSigned(*part),
        Insn::Store {
            size,
            source: Operand::Register(_),
            ..
        } => Mnemonic::StoreRegister(*size),
        Insn::Store {
            size,
            source: Operand::Immediate(_),
            ..
        } => Mnemonic::StoreNumber(*size),
        Insn::Call { .. } => Mnemonic::Call,
        Insn::Exit => Mnemonic::Exit,
    }
}

/// Appends a space and a register: the operand of an instruction with only one.
fn put_target(out: &mut String, dst: Reg) -> Result<(), AllocError>
    ensures { OnOk result (string_bytes out.new ≡ string_bytes out.old ++ operands_text (register_text dst ∷ [])) }
{
    put(out, " ")?;
    put_register(out, dst)
}

/// Appends a space, a register, a comma, and a second operand, such as ` r1, 8`.
fn put_pair(out: &mut String, dst: Reg, operand: Operand) -> Result<(), AllocError>
    ensures { OnOk result (string_bytes out.new ≡ string_bytes out.old
        ++ operands_text (register_text dst ∷ operand_text operand ∷ [])) }
{
    put(out, " ")?;
    put_register(out, dst)?;
    put_comma(out)?;
    put_operand(out, operand)
}

/// Appends a space, a register, a comma, and an unsigned 64-bit number, such as ` r1, 8`.
fn put_wide(out: &mut String, dst: Reg, number: u64) -> Result<(), AllocError>
    ensures { OnOk result (string_bytes out.new ≡ string_bytes out.old
        ++ operands_text (register_text dst ∷ decimal number ∷ [])) }
{
    put(out, " ")?;
    put_register(out, dst)?;
    put_comma(out)?;
    put_unsigned(out, number)
}

/// Appends a space and a distance, such as ` +2`.
fn put_distance(out: &mut String, distance: i64) -> Result<(), AllocError>
    ensures { OnOk result (string_bytes out.new ≡ string_bytes out.old ++ operands_text (signed_text distance ∷ [])) }
{
    put(out, " ")?;
    put_signed(out, distance)
}

/// Appends the operands of a conditional jump, such as ` r1, 8, +2`: the two that it compares, and its distance.
fn put_branch(out: &mut String, dst: Reg, operand: Operand, distance: i16) -> Result<(), AllocError>
    ensures { OnOk result (string_bytes out.new ≡ string_bytes out.old
        ++ operands_text (register_text dst ∷ operand_text operand ∷ signed_text distance ∷ [])) }
{
    put(out, " ")?;
    put_register(out, dst)?;
    put_comma(out)?;
    put_operand(out, operand)?;
    put_comma(out)?;
    put_signed(out, distance as i64)
}

/// Appends the operands of a load, such as ` r1, [r10-8]`.
fn put_load(out: &mut String, dst: Reg, base: Reg, offset: i16) -> Result<(), AllocError>
    ensures { OnOk result (string_bytes out.new ≡ string_bytes out.old
        ++ operands_text (register_text dst ∷ place_text base offset ∷ [])) }
{
    put(out, " ")?;
    put_register(out, dst)?;
    put_comma(out)?;
    put_place(out, base, offset)
}

/// Appends the operands of a store, such as ` [r10-8], r1`.
fn put_store(out: &mut String, base: Reg, offset: i16, source: Operand) -> Result<(), AllocError>
    ensures { OnOk result (string_bytes out.new ≡ string_bytes out.old
        ++ operands_text (place_text base offset ∷ operand_text source ∷ [])) }
{
    put(out, " ")?;
    put_place(out, base, offset)?;
    put_comma(out)?;
    put_operand(out, source)
}

/// Appends a space and the number of a helper.
fn put_helper(out: &mut String, helper: i32) -> Result<(), AllocError>
    ensures { OnOk result (string_bytes out.new ≡ string_bytes out.old ++ operands_text (signed_decimal helper ∷ [])) }
{
    put(out, " ")?;
    put_number(out, helper as i64)
}

/// Appends the operands of an instruction, such as ` r1, 8`, or nothing if it has none.
fn put_operands(out: &mut String, insn: &Insn) -> Result<(), AllocError>
    ensures { OnOk result (string_bytes out.new ≡ string_bytes out.old ++ operands_text (operands_of insn.now)) }
{
    match insn {
        Insn::Arithmetic { dst, operand, .. } => put_pair(out, *dst, *operand),
        Insn::Negate { dst, .. } => put_target(out, *dst),
        Insn::SignExtend { dst, src, .. } => put_pair(out, *dst, Operand::Register(*src)),
        Insn::Swap { dst, .. } => put_target(out, *dst),
        Insn::LoadImmediate { dst, number } => put_wide(out, *dst, *number),
        Insn::Jump { distance } => put_distance(out, *distance as i64),
        Insn::LongJump { distance } => put_distance(out, *distance as i64),
        Insn::Branch {
            dst,
            operand,
            distance,
            ..
        } => put_branch(out, *dst, *operand, *distance),
        Insn::Load {
            dst,
            base,
            offset,
            ..
        }
        | Insn::LoadSigned {
            dst,
            base,
            offset,
            ..
        } => { put_load(out, *dst, *base, *offset) }
        Insn::Store {
            base,
            offset,
            source,
            ..
        } => put_store(out, *base, *offset, *source),
        Insn::Call { helper } => put_helper(out, *helper),
        Insn::Exit => Ok(()),
    }
}

/// Appends an instruction as text, such as `add r1, 8`.
#[tactic(auto, unfolding(crate::specs::Printing::insn_text))]
pub fn put_instruction(out: &mut String, insn: &Insn) -> Result<(), AllocError>
    ensures { OnOk result (string_bytes out.new ≡ string_bytes out.old ++ insn_text insn.now) }
{
    put(out, name(mnemonic_for(insn)))?;
    put_operands(out, insn)
}

/// Appends an instruction as text, such as `add r1, 8`, and a line feed.
pub fn put_line(out: &mut String, insn: &Insn) -> Result<(), AllocError>
    ensures { OnOk result (string_bytes out.new ≡ string_bytes out.old ++ line_text insn.now) }
{
    put_instruction(out, insn)?;
    put(out, "\n")
}
