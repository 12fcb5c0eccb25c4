//! Decodes bytecode, and then verifies, explains or disassembles the program. Rejected bytecode is reported as a
//! `BytecodeRefusal`.
ghost use Rattle.std.specs.Prelude.{◌≡◌, ◌≢◌, IfOk, IfErr, MatchResult, List, None, string_bytes};
ghost use Rattle.insn.specs.declared.insn.Insn.{Insn as InsnValue};
ghost use Rattle.codec.specs.Program.{SpellsProgram};
ghost use Rattle.semantics.specs.Run.{IsSound};
ghost use Rattle.verify.specs.Judgement.{judged};
ghost use Rattle.capi.specs.Bytes.{IsAccepted, IsProgram};
ghost use Rattle.capi.specs.Refusals.{Refuses, status_of};
ghost use Rattle.capi.specs.Texts.{IsExplanation, IsAssembly};

use crate::refusal::BytecodeRefusal;
use asm::disassemble;
use codec::{CodecError, decode, first_fault, no_fault_in_programs};
use explain::explanation;
use insn::Program;
use std::alloc::Global;
use verify::{Verified, VerifyError, verify};

/// Returns why the bytes are rejected after `decode` has run out of memory. Looks for their first fault without
/// allocating. Returns `Memory` if the bytes have no fault, and so are the bytecode of a program.
fn undecoded(bytes: &[u8]) -> BytecodeRefusal
    ensures refused { Refuses bytes.now result }
    ensures unjudged { status_of result ≢ 2 }
    ensures only { IsProgram bytes.now → result ≡ BytecodeRefusal.Memory }
{
    no_fault_in_programs();
    match first_fault(bytes) {
        Some((fault, unit)) => BytecodeRefusal::Misspelt(fault, unit),
        None => BytecodeRefusal::Memory,
    }
}

/// Decodes bytecode into a program. Fails with `Misspelt` and the first fault if the bytes are not the bytecode of a
/// program, and with `Memory` if memory runs out.
fn spelt(alloc: Global, bytes: &[u8]) -> Result<Program, BytecodeRefusal>
    ensures spelt { IfOk result (λ program. SpellsProgram bytes.now program) }
    ensures refused { IfErr result (λ refusal. Refuses bytes.now refusal) }
    ensures unjudged { IfErr result (λ refusal. status_of refusal ≢ 2) }
    ensures only { (program : List InsnValue) → SpellsProgram bytes.now program →
        MatchResult result (λ p. p ≡ program) (λ refusal. refusal ≡ BytecodeRefusal.Memory) }
{
    match decode(alloc, bytes) {
        Ok(program) => Ok(program),
        Err(CodecError::At(fault, unit)) => Err(BytecodeRefusal::Misspelt(fault, unit)),
        Err(CodecError::Memory) => Err(undecoded(bytes)),
    }
}

/// Decodes bytecode into a program and verifies it.
///
/// # Errors
///
/// Fails with `Misspelt` if the bytes are not the bytecode of a program, with `Refused` if the verifier rejects the
/// program, and with `Memory` if memory runs out.
pub fn accepted(alloc: Global, bytes: &[u8]) -> Result<Verified, BytecodeRefusal>
    ensures spelt { IfOk result (λ v. SpellsProgram bytes.now v) }
    ensures accepted { IfOk result (λ v. judged v ≡ None) }
    ensures sound { IfOk result (λ v. IsSound v) }
    ensures refused { IfErr result (λ refusal. Refuses bytes.now refusal) }
    ensures only { IsAccepted bytes.now → IfErr result (λ refusal. refusal ≡ BytecodeRefusal.Memory) }
{
    let program = match spelt(alloc, bytes) {
        Ok(program) => program,
        Err(refusal) => return Err(refusal),
    };
    match verify(alloc, program) {
        Ok(verified) => Ok(verified),
        Err(refused) => match refused.fault {
            VerifyError::At(reason, unit) => Err(BytecodeRefusal::Refused(reason, unit)),
            VerifyError::Memory => Err(BytecodeRefusal::Memory),
        },
    }
}

/// Decodes bytecode into a program and explains it: what the verifier knows at each unit and, if it rejects the
/// program, why.
///
/// # Errors
///
/// Fails with `Misspelt` if the bytes are not the bytecode of a program, and with `Memory` if memory runs out.
pub fn explained(alloc: Global, bytes: &[u8]) -> Result<String, BytecodeRefusal>
    ensures text { IfOk result (λ text. IsExplanation bytes.now (string_bytes text)) }
    ensures refused { IfErr result (λ refusal. Refuses bytes.now refusal) }
    ensures unjudged { IfErr result (λ refusal. status_of refusal ≢ 2) }
    ensures only { IsProgram bytes.now → IfErr result (λ refusal. refusal ≡ BytecodeRefusal.Memory) }
{
    let program = match spelt(alloc, bytes) {
        Ok(program) => program,
        Err(refusal) => return Err(refusal),
    };
    match explanation(alloc, &program) {
        Ok(text) => Ok(text),
        Err(_) => Err(BytecodeRefusal::Memory),
    }
}

/// Decodes bytecode into a program, and returns its assembly text.
///
/// # Errors
///
/// Fails with `Misspelt` if the bytes are not the bytecode of a program, and with `Memory` if memory runs out.
pub fn assembly(alloc: Global, bytes: &[u8]) -> Result<String, BytecodeRefusal>
    ensures text { IfOk result (λ text. IsAssembly bytes.now (string_bytes text)) }
    ensures refused { IfErr result (λ refusal. Refuses bytes.now refusal) }
    ensures unjudged { IfErr result (λ refusal. status_of refusal ≢ 2) }
    ensures only { IsProgram bytes.now → IfErr result (λ refusal. refusal ≡ BytecodeRefusal.Memory) }
{
    let program = match spelt(alloc, bytes) {
        Ok(program) => program,
        Err(refusal) => return Err(refusal),
    };
    match disassemble(alloc, &program) {
        Ok(text) => Ok(text),
        Err(_) => Err(BytecodeRefusal::Memory),
    }
}
