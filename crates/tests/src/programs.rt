//! Tests of the units of a program. A unit has 8 bytes, and a wide instruction takes two.

use insn::{Insn, Operand, Program, Reg};
use std::alloc::{AllocError, Global};
use word::{Operation, Width};

/// Checks whether `found` is the wide instruction that loads 7 into `register`.
fn is_wide(found: &Option<Insn>, register: Reg) -> bool {
    matches!(found, Some(Insn::LoadImmediate { dst, number: 7 }) if *dst == register)
}

/// Checks whether `found` is the narrow instruction that moves 42 into `register`.
fn is_narrow(found: &Option<Insn>, register: Reg) -> bool {
    matches!(
        found,
        Some(Insn::Arithmetic {
            width: Width::W64,
            operation: Operation::Move,
            dst,
            operand: Operand::Immediate(42),
        }) if *dst == register
    )
}

/// Checks that the program of a wide instruction, a narrow instruction and the exit takes four units, and that no
/// instruction begins at unit 1.
fn is_laid_out(program: &Program, dst: Reg) -> bool {
    program.len() == 3
        && program.units() == 4
        && program.instructions().len() == 3
        && is_wide(&program.at(0), dst)
        && program.at(1).is_none()
        && is_narrow(&program.at(2), dst)
        && matches!(program.at(3), Some(Insn::Exit))
        && program.at(4).is_none()
}

/// Builds the program of a wide instruction, a narrow instruction and the exit.
fn program(alloc: Global, dst: Reg) -> Result<Program, AllocError> {
    let wide = Insn::LoadImmediate { dst, number: 7 };
    let narrow = Insn::Arithmetic {
        width: Width::W64,
        operation: Operation::Move,
        dst,
        operand: Operand::Immediate(42),
    };
    Program::new(alloc, [wide, narrow, Insn::Exit].to_vec(alloc)?)
}

/// Checks that the program of a wide instruction, a narrow instruction and the exit takes four units.
fn takes_two_units(alloc: Global) -> bool {
    let Some(dst) = Reg::new(1) else {
        return false;
    };
    match program(alloc, dst) {
        Ok(program) => is_laid_out(&program, dst),
        Err(_) => false,
    }
}

#[test]
fn a_wide_instruction_takes_two_units(rt: HostRuntime) {
    assert!(rt; takes_two_units(rt.alloc()));
}
