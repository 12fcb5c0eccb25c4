//! The disassembler: it turns a program into text.

ghost use Rattle.std.specs.Prelude.{◌≡◌, ◌≤◌, ◌++◌, codes, decimal, length, string_bytes, IfOk, OnOk, Some};
ghost use Rattle.insn.specs.Program.{slots_of};
ghost use Rattle.asm.specs.Printing.{text_of, unit_lines};
ghost use Rattle.asm.specs.Program.{program_of};

use crate::printer::put_line;
use crate::text_parts::{put, put_unsigned};
use insn::{Insn, Program};
use std::alloc::{AllocError, Global};

/// Appends the instructions as text, one on each line.
fn put_lines(out: &mut String, insns: &[Insn]) -> Result<(), AllocError>
    ensures { OnOk result (string_bytes out.new ≡ string_bytes out.old ++ text_of insns.now) }
{
    for insn in insns {
        put_line(out, insn)?;
    }
    Ok(())
}

/// Returns a program as text, with one instruction on each line. Fails with `AllocError` if out of memory.
pub fn disassemble(alloc: Global, program: &Program) -> Result<String, AllocError>
    ensures text { IfOk result (λ s. string_bytes s ≡ text_of program.now) }

    // The text assembles to this program.
    ensures again { IfOk result (λ s. program_of (string_bytes s) ≡ Some program.now) }
{
    let mut out = String::with_capacity(alloc, 16 * program.units())?;
    put_lines(&mut out, program.instructions())?;
    Ok(out)
}

/// Returns a program as text, with the number of the unit and the instruction on each line, such as `3 mov r0, 0`.
/// Fails with `AllocError` if out of memory.
pub fn disassemble_units(alloc: Global, program: &Program) -> Result<String, AllocError>
    ensures { IfOk result (λ s. string_bytes s ≡ unit_lines 0 program.now) }
{
    let mut out = String::with_capacity(alloc, 16 * program.units())?;
    put_unit_lines(&mut out, program.instructions())?;
    Ok(out)
}

/// Appends the instructions as text, each on a line of its own after the number of its unit.
fn put_unit_lines(out: &mut String, insns: &[Insn]) -> Result<(), AllocError>
    requires { length (slots_of insns.now) ≤ 4096 }
    ensures { OnOk result (string_bytes out.new ≡ string_bytes out.old ++ unit_lines 0 insns.now) }
{
    let mut unit = 0;
    for insn in insns {
        put_unit(out, unit)?;
        put_line(out, insn)?;
        unit += insn.units();
    }
    Ok(())
}

/// Appends the number of a unit, and then a space.
fn put_unit(out: &mut String, unit: u16) -> Result<(), AllocError>
    ensures { OnOk result (string_bytes out.new ≡ string_bytes out.old ++ decimal unit ++ codes " ") }
{
    put_unsigned(out, u64::from(unit))?;
    put(out, " ")
}
