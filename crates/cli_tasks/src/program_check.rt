//! Reads and verifies a program, and runs it in the bench setting: as the last of 4 generals, in the first round, with
//! a board of zeros (subcommand `check`).
ghost use Rattle.std.specs.Prelude.{◌≡◌, Ok, Err, IfOk, IfErr, MatchResult, None, Some, string_bytes};
ghost use Rattle.asm.specs.Program.{program_of};
ghost use Rattle.codec.specs.Program.{SpellsProgram};
ghost use Rattle.semantics.specs.Run.{IsSound};
ghost use Rattle.verify.specs.Judgement.{judged};
ghost use Rattle.cli_tasks.specs.Answers.{IsRun};
ghost use Rattle.object.specs.Symbol.{asked};
ghost use Rattle.cli_tasks.specs.Programs.{HasEntry, HasProgram};
ghost use Rattle.cli_tasks.specs.Lines.{checked_lines};
ghost use Rattle.cli_tasks.specs.ProgramRefusals.{RefusesCheck, RefusesCheckAssembly, RefusesCheckIn, RefusesObject, RefusesProgram};
ghost use Rattle.cli_tasks.specs.Refusals.{verifier_refusal};

use crate::programs::code_in;
use crate::refusal::InputRefusal;
use crate::texts::as_text;
use asm::assemble;
use cli_words::Notation;
use codec::decode;
use insn::Program;
use std::alloc::{AllocError, Global};
use trial::{Setting, first_lines, run_in};
use verify::{Refused, Verified, verify};

/// The size of an accepted program, and the result of its run in the bench setting (general 3 of 4 in the first round).
#[derive(Clone, Copy)]
pub struct Checked {
    /// The number of instructions.
    pub instructions: usize,
    /// The number of 8-byte units of bytecode that the program takes.
    pub units: usize,
    /// The value of register r0 with which the program exited.
    pub r0: u64,
    /// The number of steps that the run took.
    pub steps: u32,
}

/// Reads a program from a file, verifies it, and runs it in the bench setting: as the last of 4 generals, in the first
/// round, with a board of zeros. `notation` says whether the file is bytecode, assembly or an ELF object. Returns the
/// verified program, and its size with the result of the run.
///
/// # Errors
///
/// Fails if the codec, the assembler or the verifier rejects the program, if an ELF object has no code for the entry
/// function, if a text is not UTF-8, or if memory runs out.
pub fn check(
    alloc: Global,
    notation: &Notation,
    bytes: &[u8],
) -> Result<(Verified, Checked), InputRefusal>
    ensures program { IfOk result (λ c. HasProgram notation.now bytes.now c.0) }
    ensures run { IfOk result (λ c. IsRun c.0 c.1) }
    ensures refused { IfErr result (RefusesCheckIn notation.now bytes.now) }
{
    let verified = accepted_in(alloc, notation, bytes)?;
    let checked = run(alloc, &verified)?;
    Ok((verified, checked))
}

/// Reads a program from the bytes of a file, and verifies it. `notation` says whether the file is bytecode, assembly or
/// an ELF object.
///
/// # Errors
///
/// Fails if the codec, the assembler or the verifier rejects the program, if an ELF object has no code for the entry
/// function, if a text is not UTF-8, or if memory runs out.
pub fn accepted_in(
    alloc: Global,
    notation: &Notation,
    bytes: &[u8],
) -> Result<Verified, InputRefusal>
    ensures program { IfOk result (λ program. HasProgram notation.now bytes.now program) }
    ensures accepted { IfOk result (λ program. judged program ≡ None) }
    ensures sound { IfOk result (λ program. IsSound program) }
    ensures refused { IfErr result (RefusesCheckIn notation.now bytes.now) }
{
    match notation {
        Notation::Bytecode => accepted(alloc, bytes),
        Notation::Assembly => accepted_text(alloc, as_text(bytes)?),
        Notation::Object { entry } => accepted_object(alloc, bytes, entry.as_deref()),
    }
}

/// Decodes and verifies the program in an ELF object: its function named `entry` or, without a name, its only global
/// function.
fn accepted_object(
    alloc: Global,
    object: &[u8],
    entry: Option<&str>,
) -> Result<Verified, InputRefusal>
    ensures program { IfOk result (λ program. HasEntry (asked entry.entry) object.now program) }
    ensures accepted { IfOk result (λ program. judged program ≡ None) }
    ensures sound { IfOk result (λ program. IsSound program) }
    ensures refused { IfErr result (RefusesObject RefusesCheck (asked entry.entry) object.now) }
{
    match code_in(object, entry) {
        Ok(code) => accepted(alloc, code),
        Err(fault) => Err(InputRefusal::Object(fault)),
    }
}

/// Decodes a program from bytecode, and verifies it.
///
/// # Errors
///
/// Fails if the codec or the verifier rejects the program, or if memory runs out.
pub fn accepted(alloc: Global, bytes: &[u8]) -> Result<Verified, InputRefusal>
    ensures spelt { IfOk result (λ program. SpellsProgram bytes.now program) }
    ensures accepted { IfOk result (λ program. judged program ≡ None) }
    ensures sound { IfOk result (λ program. IsSound program) }
    ensures refused { IfErr result (RefusesCheck bytes.now) }
{
    let program = decode(alloc, bytes)?;
    accepted_program(alloc, program)
}

/// Assembles a program from text, and verifies it.
///
/// # Errors
///
/// Fails if the assembler or the verifier rejects the program, or if memory runs out.
pub fn accepted_text(alloc: Global, text: &str) -> Result<Verified, InputRefusal>
    ensures said { IfOk result (λ program. program_of text.now ≡ Some program) }
    ensures accepted { IfOk result (λ program. judged program ≡ None) }
    ensures sound { IfOk result (λ program. IsSound program) }
    ensures refused { IfErr result (RefusesCheckAssembly text.now) }
{
    let program = assemble(alloc, text)?;
    accepted_program(alloc, program)
}

/// Verifies a program. Returns it as a verified program, or fails with the reason why it is rejected.
fn accepted_program(alloc: Global, program: Program) -> Result<Verified, InputRefusal>
    ensures same { IfOk result (λ verified. verified ≡ program) }
    ensures accepted { IfOk result (λ verified. judged verified ≡ None) }
    ensures sound { IfOk result (λ verified. IsSound verified) }
    ensures refused { IfErr result (RefusesProgram program) }
{
    accepted_by(verify(alloc, program))
}

/// Returns the verified program, or the verifier's error as an `InputRefusal`.
fn accepted_by(judgement: Result<Verified, Refused>) -> Result<Verified, InputRefusal>
    ensures { MatchResult judgement (λ verified. result ≡ Ok verified)
        (λ refused. result ≡ Err (verifier_refusal refused.fault)) }
{
    match judgement {
        Ok(verified) => Ok(verified),
        Err(refused) => Err(InputRefusal::from(refused.fault)),
    }
}

/// Runs a verified program in the bench setting: as the last of 4 generals, in the first round, with a board of zeros.
/// Returns the size of the program and the result of the run.
fn run(alloc: Global, verified: &Verified) -> Result<Checked, AllocError>
    requires accepted { judged verified.now ≡ None }
    ensures { IfOk result (IsRun verified.now) }
{
    let exited = run_in(alloc, verified, &Setting::bench(alloc))?;
    let program = verified.program();
    Ok(Checked {
        instructions: program.len(),
        units: program.units(),
        r0: exited.r0,
        steps: exited.activation.steps(),
    })
}

/// Returns the lines that `check` prints about an accepted program: its size, and the result of its run.
pub(crate) fn checked_text(alloc: Global, checked: &Checked) -> Result<String, AllocError>
    ensures { IfOk result (λ text. string_bytes text ≡ checked_lines checked.now) }
{
    let Checked {
        instructions,
        units,
        r0,
        steps,
    } = *checked;
    first_lines(alloc, instructions, units, r0, steps)
}
