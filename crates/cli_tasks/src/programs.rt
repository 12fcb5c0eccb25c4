//! Reads the program in a file of bytecode or assembly, or in an ELF object, without verifying it.
ghost use Rattle.std.specs.Prelude.{◌≡◌, IfOk, IfErr, MatchResult, Ok, Err, Some};
ghost use Rattle.asm.specs.Program.{program_of};
ghost use Rattle.codec.specs.Program.{SpellsProgram};
ghost use Rattle.object.specs.Entry.{entry_of};
ghost use Rattle.object.specs.Symbol.{asked};
ghost use Rattle.cli_tasks.specs.Programs.{HasEntry, HasProgram};
ghost use Rattle.cli_tasks.specs.ProgramRefusals.{RefusesAssembly, RefusesDisassembly, RefusesNotation, RefusesObject};

use crate::refusal::InputRefusal;
use crate::texts::as_text;
use asm::assemble;
use cli_words::Notation;
use codec::decode;
use insn::Program;
use object::ObjectFault;
use std::alloc::Global;

/// Reads a program from the bytes of a file, without verifying it. `notation` says whether the file is bytecode,
/// assembly or an ELF object. Fails if the bytes are not a program, or if memory runs out.
pub(crate) fn program_in(
    alloc: Global,
    notation: &Notation,
    bytes: &[u8],
) -> Result<Program, InputRefusal>
    ensures program { IfOk result (λ program. HasProgram notation.now bytes.now program) }
    ensures refused { IfErr result (RefusesNotation notation.now bytes.now) }
{
    match notation {
        Notation::Bytecode => of_bytes(alloc, bytes),
        Notation::Assembly => of_text(alloc, as_text(bytes)?),
        Notation::Object { entry } => of_object(alloc, bytes, entry.as_deref()),
    }
}

/// Decodes a program from bytecode, without verifying it.
fn of_bytes(alloc: Global, bytes: &[u8]) -> Result<Program, InputRefusal>
    ensures program { IfOk result (λ program. SpellsProgram bytes.now program) }
    ensures refused { IfErr result (RefusesDisassembly bytes.now) }
{
    Ok(decode(alloc, bytes)?)
}

/// Assembles a program from text, without verifying it.
fn of_text(alloc: Global, text: &str) -> Result<Program, InputRefusal>
    ensures program { IfOk result (λ program. program_of text.now ≡ Some program) }
    ensures refused { IfErr result (RefusesAssembly text.now) }
{
    Ok(assemble(alloc, text)?)
}

/// Decodes the program in an ELF object: its function named `entry` or, without a name, its only global function.
fn of_object(alloc: Global, object: &[u8], entry: Option<&str>) -> Result<Program, InputRefusal>
    ensures program { IfOk result (λ program. HasEntry (asked entry.entry) object.now program) }
    ensures refused { IfErr result (RefusesObject RefusesDisassembly (asked entry.entry) object.now) }
{
    match code_in(object, entry) {
        Ok(code) => of_bytes(alloc, code),
        Err(fault) => Err(InputRefusal::Object(fault)),
    }
}

/// Returns the code of the function named `entry` in an ELF object or, without a name, the code of its only global
/// function. Fails with the object's fault if there is no such code.
pub(crate) fn code_in<'a>(object: &'a [u8], entry: Option<&str>) -> Result<&'a [u8], ObjectFault>
    ensures { MatchResult result (λ code. entry_of object.now (asked entry.entry) ≡ Ok code.now)
        (λ fault. entry_of object.now (asked entry.entry) ≡ Err fault) }
{
    match entry {
        None => object::entry(object, None),
        Some(name) => object::entry(object, Some(name.as_bytes())),
    }
}
