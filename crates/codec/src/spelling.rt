//! Encodes each instruction as the fields of one or two units (RFC 9669, section 3).
ghost use Rattle.std.specs.Prelude.{◌≡◌, ◌≤◌, [], ◌∷◌, IfSome};
ghost use Rattle.std.specs.Int.{w16, cast_unsigned};
ghost use Rattle.word.specs.Arithmetic.{swapped_bytes};
ghost use Rattle.insn.specs.declared.insn.Insn.TheVariants as i;
ghost use Rattle.insn.specs.Insn.{part_bytes};
ghost use Rattle.codec.specs.Spelling.{fields, spelling, alu_class, jump_class, operation_code, operation_offset, condition_code, size_code, part_code, swap_code, units_list};

use crate::fields::Fields;
use insn::{Insn, Operand, Reg, Size};
use word::{ByteOrder, Condition, Narrow, Operation, SwapSize, Width};

/// Returns the class of arithmetic instructions of this width: the low three bits of their opcodes.
fn arithmetic_class(width: Width) -> u8
    ensures class { result ≡ alu_class width }
    ensures few { result ≤ 7 }
{
    match width {
        Width::W32 => 4,
        Width::W64 => 7,
    }
}

/// Returns the class of conditional jumps of this width: the low three bits of their opcodes.
fn branch_class(width: Width) -> u8
    ensures class { result ≡ jump_class width }
    ensures few { result ≤ 6 }
{
    match width {
        Width::W32 => 6,
        Width::W64 => 5,
    }
}

/// Returns the high four bits of the opcode of an operation, as a number from 0x00 to 0xc0.
fn operation_bits(operation: Operation) -> u8
    ensures code { result ≡ operation_code operation }
    ensures few { result ≤ 0xc0 }
{
    match operation {
        Operation::Add => 0x00,
        Operation::Sub => 0x10,
        Operation::Mul => 0x20,
        Operation::Div => 0x30,
        Operation::SignedDiv => 0x30,
        Operation::Or => 0x40,
        Operation::And => 0x50,
        Operation::ShiftLeft => 0x60,
        Operation::ShiftRight => 0x70,
        Operation::Mod => 0x90,
        Operation::SignedMod => 0x90,
        Operation::Xor => 0xa0,
        Operation::Move => 0xb0,
        Operation::ArithmeticShiftRight => 0xc0,
    }
}

/// Returns the `offset` field of an operation: 1 for signed division and remainder, and otherwise 0.
fn offset_bits(operation: Operation) -> u16
    ensures { result ≡ operation_offset operation }
{
    match operation {
        Operation::SignedDiv | Operation::SignedMod => 1,
        _ => 0,
    }
}

/// Returns the high four bits of the opcode of a conditional jump, as a number from 0x10 to 0xd0.
fn condition_bits(condition: Condition) -> u8
    ensures code { result ≡ condition_code condition }
    ensures few { result ≤ 0xd0 }
{
    match condition {
        Condition::Equal => 0x10,
        Condition::Above => 0x20,
        Condition::AtLeast => 0x30,
        Condition::AnyBit => 0x40,
        Condition::NotEqual => 0x50,
        Condition::SignedAbove => 0x60,
        Condition::SignedAtLeast => 0x70,
        Condition::Below => 0xa0,
        Condition::AtMost => 0xb0,
        Condition::SignedBelow => 0xc0,
        Condition::SignedAtMost => 0xd0,
    }
}

/// Returns the two bits of the opcode of a load or store that encode its size, as a number from 0x00 to 0x18.
fn size_bits(size: Size) -> u8
    ensures code { result ≡ size_code size }
    ensures few { result ≤ 0x18 }
{
    match size {
        Size::Word => 0x00,
        Size::Half => 0x08,
        Size::Byte => 0x10,
        Size::Double => 0x18,
    }
}

/// Returns the two bits of the opcode of a sign-extended load that encode its size, as a number from 0x00 to 0x10.
fn part_bits(part: Narrow) -> u8
    ensures code { result ≡ part_code part }
    ensures few { result ≤ 0x10 }
{
    match part {
        Narrow::Word => 0x00,
        Narrow::Half => 0x08,
        Narrow::Byte => 0x10,
    }
}

/// Returns the fields of an arithmetic instruction with two operands.
fn arithmetic(width: Width, operation: Operation, dst: Reg, operand: Operand) -> Fields
    ensures spelled { spelling (i.Arithmetic width operation dst operand) ≡ result ∷ [] }
    ensures registers { (result.dst ≤ 10) × (result.src ≤ 10) }
{
    let opcode = operation_bits(operation) + arithmetic_class(width);
    let offset = offset_bits(operation);
    let dst = dst.number();
    match operand {
        Operand::Immediate(n) => Fields {
            opcode,
            dst,
            src: 0,
            offset,
            imm: n.cast_unsigned(),
        },
        Operand::Register(src) => Fields {
            opcode: opcode + 8,
            dst,
            src: src.number(),
            offset,
            imm: 0,
        },
    }
}

/// Returns the fields of a move with sign extension.
fn sign_extend(width: Width, part: Narrow, dst: Reg, src: Reg) -> Fields
    ensures spelled { spelling (i.SignExtend width part dst src) ≡ result ∷ [] }
    ensures registers { (result.dst ≤ 10) × (result.src ≤ 10) }
{
    Fields {
        opcode: 0xb8 + arithmetic_class(width),
        dst: dst.number(),
        src: src.number(),
        offset: match part {
            Narrow::Byte => 8,
            Narrow::Half => 16,
            Narrow::Word => 32,
        },
        imm: 0,
    }
}

/// Returns the fields of a byte swap.
fn swap(order: ByteOrder, size: SwapSize, dst: Reg) -> Fields
    ensures spelled { spelling (i.Swap order size dst) ≡ result ∷ [] }
    ensures registers { (result.dst ≤ 10) × (result.src ≤ 10) }
{
    Fields {
        opcode: match order {
            ByteOrder::Little => 0xd4,
            ByteOrder::Big => 0xdc,
            ByteOrder::Reversed => 0xd7,
        },
        dst: dst.number(),
        src: 0,
        offset: 0,
        imm: match size {
            SwapSize::Half => 16,
            SwapSize::Word => 32,
            SwapSize::Double => 64,
        },
    }
}

/// Returns the fields of a conditional jump.
fn branch(width: Width, condition: Condition, dst: Reg, operand: Operand, distance: i16) -> Fields
    ensures spelled { spelling (i.Branch width condition dst operand distance) ≡ result ∷ [] }
    ensures registers { (result.dst ≤ 10) × (result.src ≤ 10) }
{
    let opcode = condition_bits(condition) + branch_class(width);
    let dst = dst.number();
    let offset = distance.cast_unsigned();
    match operand {
        Operand::Immediate(n) => Fields {
            opcode,
            dst,
            src: 0,
            offset,
            imm: n.cast_unsigned(),
        },
        Operand::Register(src) => Fields {
            opcode: opcode + 8,
            dst,
            src: src.number(),
            offset,
            imm: 0,
        },
    }
}

/// Returns the fields of a store.
fn store(size: Size, base: Reg, offset: i16, source: Operand) -> Fields
    ensures spelled { spelling (i.Store size base offset source) ≡ result ∷ [] }
    ensures registers { (result.dst ≤ 10) × (result.src ≤ 10) }
{
    let size = size_bits(size);
    let dst = base.number();
    let offset = offset.cast_unsigned();
    match source {
        Operand::Immediate(n) => Fields {
            opcode: 0x62 + size,
            dst,
            src: 0,
            offset,
            imm: n.cast_unsigned(),
        },
        Operand::Register(src) => Fields {
            opcode: 0x63 + size,
            dst,
            src: src.number(),
            offset,
            imm: 0,
        },
    }
}

/// Returns the fields of a load with this opcode: into register `dst`, from `offset` after the address in register
/// `base`.
fn load(opcode: u8, dst: Reg, base: Reg, offset: i16) -> Fields
    ensures fields { result ≡ fields opcode dst base (cast_unsigned w16 offset) 0 }
    ensures registers { (result.dst ≤ 10) × (result.src ≤ 10) }
{
    Fields {
        opcode,
        dst: dst.number(),
        src: base.number(),
        offset: offset.cast_unsigned(),
        imm: 0,
    }
}

/// Returns the fields of an instruction without registers.
fn plain(opcode: u8, offset: u16, imm: u32) -> Fields
    ensures fields { result ≡ fields opcode 0 0 offset imm }
{
    Fields {
        opcode,
        dst: 0,
        src: 0,
        offset,
        imm,
    }
}

/// Returns the fields of an instruction's first unit, and of its second. Only the wide instruction has a second unit.
pub fn units(insn: &Insn) -> (Fields, Option<Fields>)
    ensures spelled { spelling insn.now ≡ units_list result }
    ensures first { (result.0.dst ≤ 10) × (result.0.src ≤ 10) }
    ensures second { IfSome result.1 (λ f. (f.dst ≤ 10) × (f.src ≤ 10)) }
{
    let first = match insn {
        Insn::LoadImmediate { dst, number } => {
            let low = Fields {
                opcode: 0x18,
                dst: dst.number(),
                src: 0,
                offset: 0,
                imm: (*number % 0x1_0000_0000) as u32,
            };
            return (low, Some(plain(0, 0, (*number >> 32) as u32)));
        }
        Insn::Arithmetic {
            width,
            operation,
            dst,
            operand,
        } => { arithmetic(*width, *operation, *dst, *operand) }
        Insn::Negate { width, dst } => Fields {
            opcode: 0x80 + arithmetic_class(*width),
            dst: dst.number(),
            src: 0,
            offset: 0,
            imm: 0,
        },
        Insn::SignExtend {
            width,
            part,
            dst,
            src,
        } => { sign_extend(*width, *part, *dst, *src) }
        Insn::Swap { order, size, dst } => swap(*order, *size, *dst),
        Insn::Jump { distance } => plain(0x05, distance.cast_unsigned(), 0),
        Insn::LongJump { distance } => plain(0x06, 0, distance.cast_unsigned()),
        Insn::Branch {
            width,
            condition,
            dst,
            operand,
            distance,
        } => { branch(*width, *condition, *dst, *operand, *distance) }
        Insn::Load {
            size,
            dst,
            base,
            offset,
        } => { load(0x61 + size_bits(*size), *dst, *base, *offset) }
        Insn::LoadSigned {
            part,
            dst,
            base,
            offset,
        } => { load(0x81 + part_bits(*part), *dst, *base, *offset) }
        Insn::Store {
            size,
            base,
            offset,
            source,
        } => { store(*size, *base, *offset, *source) }
        Insn::Call { helper } => plain(0x85, 0, helper.cast_unsigned()),
        Insn::Exit => plain(0x95, 0, 0),
    };
    (first, None)
}
