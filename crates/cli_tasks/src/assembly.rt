//! Assembles text into bytecode, and disassembles programs into text (subcommands `asm` and `dis`).
ghost use Rattle.std.specs.Prelude.{◌≡◌, IfOk, IfErr, string_bytes};
ghost use Rattle.cli_tasks.specs.Answers.{Assembles, AssemblesRaw, Disassembles, listing};
ghost use Rattle.cli_tasks.specs.ProgramRefusals.{RefusesAssembly, RefusesNotation};

use crate::programs::program_in;
use crate::refusal::InputRefusal;
use asm::{assemble, disassemble, disassemble_units};
use cli_words::Notation;
use codec::encode;
use insn::Program;
use std::alloc::{AllocError, Global};

/// Assembles a program from text, and returns its bytecode as one line of lower-case hexadecimal digits.
///
/// # Errors
///
/// Fails with `Assembly` for the first fault of the text, and with `Memory` if memory runs out.
pub fn assembled(alloc: Global, text: &str) -> Result<String, InputRefusal>
    ensures assembled { IfOk result (λ line. Assembles text.now (string_bytes line)) }
    ensures refused { IfErr result (RefusesAssembly text.now) }
{
    let program = assemble(alloc, text)?;
    let bytes = encode(alloc, &program)?;
    let mut line = hex::encode(alloc, bytes.as_slice())?;
    line.push('\n')?;
    Ok(line)
}

/// Assembles a program from text, and returns its bytecode.
///
/// # Errors
///
/// Fails with `Assembly` for the first fault of the text, and with `Memory` if memory runs out.
pub fn assembled_raw(alloc: Global, text: &str) -> Result<Vec<u8>, InputRefusal>
    ensures assembled { IfOk result (λ bytes. AssemblesRaw text.now bytes.items) }
    ensures refused { IfErr result (RefusesAssembly text.now) }
{
    let program = assemble(alloc, text)?;
    Ok(encode(alloc, &program)?)
}

/// Reads the program in a file, and returns it as assembly text. `notation` says whether the file is bytecode, assembly
/// or an ELF object. If `units` is set, each line begins with the number of the unit (8 bytes) at which its instruction
/// begins.
///
/// # Errors
///
/// Fails if the bytes are not the bytecode of a program, if an ELF object has no code for the entry function, if a text
/// does not assemble or is not UTF-8, or if memory runs out.
pub fn disassembled(
    alloc: Global,
    notation: &Notation,
    units: bool,
    bytes: &[u8],
) -> Result<String, InputRefusal>
    ensures disassembled { IfOk result (λ text. Disassembles notation.now units bytes.now (string_bytes text)) }
    ensures refused { IfErr result (RefusesNotation notation.now bytes.now) }
{
    let program = program_in(alloc, notation, bytes)?;
    Ok(listed(alloc, units, &program)?)
}

/// Returns a program as assembly text. If `units` is set, each line begins with the number of the unit (8 bytes) at
/// which its instruction begins.
fn listed(alloc: Global, units: bool, program: &Program) -> Result<String, AllocError>
    ensures { IfOk result (λ text. string_bytes text ≡ listing units program.now) }
{
    if units {
        disassemble_units(alloc, program)
    } else {
        disassemble(alloc, program)
    }
}
