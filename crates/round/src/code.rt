//! Compares programs instruction by instruction.
ghost use Rattle.std.specs.Prelude.{◌≡◌, ◌↔◌, IsTrue};

use insn::{Insn, Operand};

/// Returns whether two operands are the same.
fn same_operand(insn: &Operand, other: &Operand) -> bool
    ensures { IsTrue result ↔ (insn.now ≡ other.now) }
{
    insn == other
}

/// Returns whether two instructions are the same.
fn same_insn(insn: &Insn, other: &Insn) -> bool
    ensures { IsTrue result ↔ (insn.now ≡ other.now) }
{
    match insn {
        Insn::Arithmetic {
            width,
            operation,
            dst,
            operand,
        } => match other {
            Insn::Arithmetic {
                width: x_width,
                operation: x_operation,
                dst: x_dst,
                operand: x_operand,
            } => width == x_width
                && operation == x_operation
                && dst == x_dst
                && same_operand(operand, x_operand),
            _ => false,
        },
        Insn::Negate { width, dst } => match other {
            Insn::Negate {
                width: x_width,
                dst: x_dst,
            } => width == x_width && dst == x_dst,
            _ => false,
        },
        Insn::SignExtend {
            width,
            part,
            dst,
            src,
        } => match other {
            Insn::SignExtend {
                width: x_width,
                part: x_part,
                dst: x_dst,
                src: x_src,
            } => width == x_width && part == x_part && dst == x_dst && src == x_src,
            _ => false,
        },
        Insn::Swap { order, size, dst } => match other {
            Insn::Swap {
                order: x_order,
                size: x_size,
                dst: x_dst,
            } => order == x_order && size == x_size && dst == x_dst,
            _ => false,
        },
        Insn::LoadImmediate { dst, number } => match other {
            Insn::LoadImmediate {
                dst: x_dst,
                number: x_number,
            } => dst == x_dst && number == x_number,
            _ => false,
        },
        Insn::Jump { distance } => match other {
            Insn::Jump {
                distance: x_distance,
            } => distance == x_distance,
            _ => false,
        },
        Insn::LongJump { distance } => match other {
            Insn::LongJump {
                distance: x_distance,
            } => distance == x_distance,
            _ => false,
        },
        Insn::Branch {
            width,
            condition,
            dst,
            operand,
            distance,
        } => match other {
            Insn::Branch {
                width: x_width,
                condition: x_condition,
                dst: x_dst,
                operand: x_operand,
                distance: x_distance,
            } => width == x_width
                && condition == x_condition
                && dst == x_dst
                && same_operand(operand, x_operand)
                && distance == x_distance,
            _ => false,
        },
        Insn::Load {
            size,
            dst,
            base,
            offset,
        } => match other {
            Insn::Load {
                size: x_size,
                dst: x_dst,
                base: x_base,
                offset: x_offset,
            } => size == x_size && dst == x_dst && base == x_base && offset == x_offset,
            _ => false,
        },
        Insn::LoadSigned {
            part,
            dst,
            base,
            offset,
        } => match other {
            Insn::LoadSigned {
                part: x_part,
                dst: x_dst,
                base: x_base,
                offset: x_offset,
            } => part == x_part && dst == x_dst && base == x_base && offset == x_offset,
            _ => false,
        },
        Insn::Store {
            size,
            base,
            offset,
            source,
        } => match other {
            Insn::Store {
                size: x_size,
                base: x_base,
                offset: x_offset,
                source: x_source,
            } => size == x_size
                && base == x_base
                && offset == x_offset
                && same_operand(source, x_source),
            _ => false,
        },
        Insn::Call { helper } => match other {
            Insn::Call { helper: x_helper } => helper == x_helper,
            _ => false,
        },
        Insn::Exit => match other {
            Insn::Exit => true,
            _ => false,
        },
    }
}

/// Returns whether two programs have the same instructions in the same order.
pub fn same_code(insns: &[Insn], others: &[Insn]) -> bool
    ensures { IsTrue result ↔ (insns.now ≡ others.now) }
{
    if insns.len() != others.len() {
        return false;
    }
    for i in 0..insns.len() {
        if !same_insn(&insns[i], &others[i]) {
            return false;
        }
    }
    true
}
