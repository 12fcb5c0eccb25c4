//! Assembles or decodes the traitors' programs, and verifies them.
ghost use Rattle.std.specs.Prelude.{◌≡◌};
ghost use Rattle.scenario.specs.Flaws.{OrMemory};
ghost use Rattle.scenario.specs.Tables.{Assembly, Hex};
ghost use Rattle.scenario.specs.Seen.{source_of, Makes, Accepts, unassembled, unhexed, undecoded, unverified};

use crate::fault::{ProgramFault, ScenarioError};
use asm::{AsmError, assemble};
use codec::{CodecError, decode};
use hex::FromHexError;
use insn::Program;
use std::alloc::Global;
use verify::{Refused, Verified, VerifyError, verify};

/// A traitor's program in the form in which his table contains it.
#[derive(Clone, Copy)]
pub enum ProgramText<'a> {
    /// The program is written as assembly.
    Asm(&'a str),
    /// The program is written as bytecode in hex.
    Code(&'a str),
}

/// Assembles the program of this general from its text.
///
/// # Errors
///
/// Fails with `Program`, the assembler's fault and its line, or with `Memory` if an allocation fails.
fn said(alloc: Global, general: u8, text: &str) -> Result<Program, ScenarioError>
    ensures { OrMemory (Makes general (Assembly text.now)) result }
{
    match assemble(alloc, text) {
        Ok(program) => Ok(program),
        Err(error) => Err(unassembled(general, error)),
    }
}

/// Returns the scenario's error for an assembler's error in the program of this general.
fn unassembled(general: u8, error: AsmError) -> ScenarioError
    ensures { result ≡ unassembled general error }
{
    match error {
        AsmError::Memory => ScenarioError::Memory,
        AsmError::At(fault, line) => {
            ScenarioError::Program(general, ProgramFault::Asm(fault, line))
        }
    }
}

/// Decodes the program of this general from bytecode in hex.
///
/// # Errors
///
/// Fails with `Program` and `Hex` if the text is not an even number of hex digits, or else with `Program`, the
/// decoder's fault and its unit. Fails with `Memory` if an allocation fails.
fn spelled(alloc: Global, general: u8, text: &str) -> Result<Program, ScenarioError>
    ensures { OrMemory (Makes general (Hex text.now)) result }
{
    let bytes = match hex::decode(alloc, text) {
        Ok(bytes) => bytes,
        Err(error) => return Err(unhexed(general, error)),
    };
    match decode(alloc, bytes.as_slice()) {
        Ok(program) => Ok(program),
        Err(error) => Err(undecoded(general, error)),
    }
}

/// Returns the scenario's error for a hex decoder's error in the program of this general.
fn unhexed(general: u8, error: FromHexError) -> ScenarioError
    ensures { result ≡ unhexed general error }
{
    match error {
        FromHexError::OutOfMemory => ScenarioError::Memory,
        FromHexError::InvalidHexCharacter { .. }
        | FromHexError::OddLength
        | FromHexError::InvalidStringLength => ScenarioError::Program(general, ProgramFault::Hex),
    }
}

/// Returns the scenario's error for a bytecode decoder's error in the program of this general.
fn undecoded(general: u8, error: CodecError) -> ScenarioError
    ensures { result ≡ undecoded general error }
{
    match error {
        CodecError::Memory => ScenarioError::Memory,
        CodecError::At(fault, unit) => {
            ScenarioError::Program(general, ProgramFault::Code(fault, unit))
        }
    }
}

/// Assembles or decodes the program of this general from the text in his table.
///
/// # Errors
///
/// Fails with `Program` and the fault of the assembler, the hex text or the decoder, or with `Memory` if an allocation
/// fails.
pub fn program(
    alloc: Global,
    general: u8,
    written: ProgramText<'_>,
) -> Result<Program, ScenarioError>
    ensures { OrMemory (Makes general (source_of written.entry)) result }
{
    match written {
        ProgramText::Asm(text) => said(alloc, general, text),
        ProgramText::Code(text) => spelled(alloc, general, text),
    }
}

/// Verifies the program of this general, and returns it if the verifier accepts it.
///
/// # Errors
///
/// Fails with `Program`, the verifier's reason and its unit, or with `Memory` if an allocation fails.
pub fn accepted(alloc: Global, general: u8, program: Program) -> Result<Verified, ScenarioError>
    ensures { OrMemory (Accepts general program) result }
{
    match verify(alloc, program) {
        Ok(verified) => Ok(verified),
        Err(Refused { program: _, fault }) => Err(unverified(general, fault)),
    }
}

/// Returns the scenario's error for a verifier's error in the program of this general.
fn unverified(general: u8, error: VerifyError) -> ScenarioError
    ensures { result ≡ unverified general error }
{
    match error {
        VerifyError::Memory => ScenarioError::Memory,
        VerifyError::At(reason, unit) => {
            ScenarioError::Program(general, ProgramFault::Verifier(reason, unit))
        }
    }
}
