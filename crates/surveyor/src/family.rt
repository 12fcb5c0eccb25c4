//! Makes the family of campaigns that a survey plays. If the program of the traitors is in a file of assembly, reads,
//! assembles and verifies it.
ghost use Rattle.std.specs.Prelude.{◌≡◌, ℕ, IfErr, IfOk, List, string_bytes};
ghost use Rattle.surveyor.specs.Asked.{IsSurvey};
ghost use Rattle.surveyor.specs.Faults.{IsFile, IsRefusedText, IsUnsaid, IsUnsound, IsUntaken};
ghost use Rattle.surveyor.specs.Words.{IsFamilyOf, IsNamed, IsProgramOf};

use crate::fault::SurveyFailure;
use crate::input::bytes_of;
use crate::task::Survey;
use asm::{AsmError, assemble};
use codec::encode;
use std::alloc::Global;
use surveys::{Adversary, Family};
use verify::{VerifyError, verify};

/// Returns the family of campaigns that a survey plays: the numbers of generals and traitors, the orders, and what the
/// traitors do. If the survey names a file of assembly as their program, reads this file.
///
/// # Errors
///
/// Fails if the file cannot be read, is not UTF-8, or contains no program that the verifier accepts, or if memory runs
/// out.
pub fn family_of(rt: &HostRuntime, survey: &Survey) -> Result<Family, SurveyFailure>
    requires { IsSurvey survey.now }
    ensures family { IfOk result (IsFamilyOf survey.now) }
    // The call fails only if a file is named.
    ensures file { IfErr result (λ _. IsFile (string_bytes survey.now.adversary)) }
    ensures refused { IfErr result (IsUntaken (string_bytes survey.now.adversary)) }
{
    let adversary = adversary_of(rt, survey.adversary.as_str())?;
    Ok(Family::new(
        survey.generals,
        survey.bound,
        survey.traitors,
        survey.commander,
        survey.orders,
        survey.grid,
        survey.manner,
        survey.patience,
        adversary,
    ))
}

/// Returns what the traitors do by the value of `--adversary`: `lies`, `silent`, `collude`, or the name of a file with
/// their program in assembly.
///
/// # Errors
///
/// Fails if the program in the file cannot be read or is rejected, or if memory runs out.
fn adversary_of(rt: &HostRuntime, word: &str) -> Result<Adversary, SurveyFailure>
    ensures named { IfOk result (IsNamed word.now) }
    ensures file { IfErr result (λ _. IsFile word.now) }
    ensures refused { IfErr result (IsUntaken word.now) }
{
    match word {
        "lies" => Ok(Adversary::Lies),
        "silent" => Ok(Adversary::Silent),
        "collude" => Ok(Adversary::Collude),
        name => Ok(Adversary::Given(hex_of(rt, name)?)),
    }
}

/// Reads a program from a file of assembly, or from standard input if the name is `-`, and verifies it. Returns its
/// bytecode in hexadecimal digits.
///
/// # Errors
///
/// Fails if the file cannot be read, is not UTF-8, or contains no program that the verifier accepts, or if memory runs
/// out.
fn hex_of(rt: &HostRuntime, name: &str) -> Result<String, SurveyFailure>
    ensures program { IfOk result (λ hex. (text : List ℕ) × IsProgramOf text (string_bytes hex)) }
    ensures refused { IfErr result (IsUntaken name.now) }
{
    let alloc = rt.alloc();
    let bytes = bytes_of(rt, name)?;
    match str::from_utf8(bytes.as_slice()) {
        Ok(text) => program_hex(alloc, text),
        Err(_) => Err(SurveyFailure::NotText(String::from_str(alloc, name)?)),
    }
}

/// Assembles and verifies a program, and returns its bytecode in hexadecimal digits.
///
/// # Errors
///
/// Fails if the assembler or the verifier rejects the program, or if memory runs out.
fn program_hex(alloc: Global, text: &str) -> Result<String, SurveyFailure>
    ensures program { IfOk result (λ hex. IsProgramOf text.now (string_bytes hex)) }
    ensures refused { IfErr result (IsRefusedText text.now) }
{
    let program = match assemble(alloc, text) {
        Ok(program) => program,
        Err(error) => return Err(unsaid(alloc, error)),
    };
    let bytes = encode(alloc, &program)?;
    match verify(alloc, program) {
        Ok(_) => Ok(hex::encode(alloc, bytes.as_slice())?),
        Err(refused) => Err(unsound(alloc, refused.fault)),
    }
}

/// Returns the failure of a survey whose program the assembler rejects: `Memory` if the assembler ran out of memory,
/// and otherwise `Refused` with the line to print.
fn unsaid(alloc: Global, error: AsmError) -> SurveyFailure
    ensures { IsUnsaid error result }
{
    match error {
        AsmError::Memory => SurveyFailure::Memory,
        error => match format!(in alloc; "refused {error}") {
            Ok(line) => SurveyFailure::Refused(line),
            Err(_) => SurveyFailure::Memory,
        },
    }
}

/// Returns the failure of a survey whose program the verifier rejects: `Memory` if the verifier ran out of memory, and
/// otherwise `Refused` with the line to print.
fn unsound(alloc: Global, fault: VerifyError) -> SurveyFailure
    ensures { IsUnsound fault result }
{
    match fault {
        VerifyError::Memory => SurveyFailure::Memory,
        fault => match format!(in alloc; "refused {fault}") {
            Ok(line) => SurveyFailure::Refused(line),
            Err(_) => SurveyFailure::Memory,
        },
    }
}
