//! Makes calls on programs: `decode`, `encode`, `assemble`, `disassemble` and `verify`.
use crate::hostile_calls::campaign::SampleCampaign;
use crate::hostile_calls::marks::{back, ready};
use crate::hostile_calls::outcome::{CallAnswer, CallOutcome, compared};
use anyhow::{Result, bail};
use asm::{AsmError, assemble, disassemble};
use codec::{CodecError, decode, encode};
use insn::Program;
use std::alloc::{AllocError, Global};
use verify::{Refused, Verified, VerifyError, verify};

/// Calls `decode` twice on the bytecode of a campaign's traitors, and compares the results.
pub fn decodes<R: Print + AllocGlobal>(rt: &R, campaign: SampleCampaign) -> Result<CallOutcome> {
    let bytes = campaign.bytecode(rt.alloc())?;
    ready(rt);
    let first = decode(rt.alloc(), bytes.as_slice());
    back(rt);
    decodes_again(rt.alloc(), first, bytes.as_slice())
}

/// Calls `decode` again, and compares both results.
fn decodes_again(
    alloc: Global,
    first: Result<Program, CodecError>,
    bytes: &[u8],
) -> Result<CallOutcome> {
    let first = decoded(alloc, first)?;
    compared(first, decoded(alloc, decode(alloc, bytes))?)
}

/// Returns the answer of `decode`: the program, or that memory ran out. Fails if the bytecode is rejected.
fn decoded(alloc: Global, answer: Result<Program, CodecError>) -> Result<CallAnswer> {
    match answer {
        Ok(program) => told_program(alloc, &program),
        Err(CodecError::Memory) => Ok(CallAnswer::Memory),
        Err(_) => bail!("bytecode is refused"),
    }
}

/// Calls `encode` twice on the program of a campaign's traitors, and compares the results.
pub fn encodes<R: Print + AllocGlobal>(rt: &R, campaign: SampleCampaign) -> Result<CallOutcome> {
    let program = campaign.program(rt.alloc())?;
    ready(rt);
    let first = encode(rt.alloc(), &program);
    back(rt);
    compared(encoded(first), encoded(encode(rt.alloc(), &program)))
}

/// Returns the answer of `encode`: the bytecode, or that memory ran out.
fn encoded(answer: Result<Vec<u8>, AllocError>) -> CallAnswer {
    match answer {
        Ok(bytes) => CallAnswer::Bytes(bytes),
        Err(_) => CallAnswer::Memory,
    }
}

/// Calls `assemble` twice on the assembly of a campaign's traitors, and compares the results.
pub fn assembles<R: Print + AllocGlobal>(rt: &R, campaign: SampleCampaign) -> Result<CallOutcome> {
    ready(rt);
    let first = assemble(rt.alloc(), campaign.assembly());
    back(rt);
    assembles_again(rt.alloc(), first, campaign.assembly())
}

/// Calls `assemble` again, and compares both results.
fn assembles_again(
    alloc: Global,
    first: Result<Program, AsmError>,
    assembly: &str,
) -> Result<CallOutcome> {
    let first = assembled(alloc, first)?;
    compared(first, assembled(alloc, assemble(alloc, assembly))?)
}

/// Returns the answer of `assemble`: the program, or that memory ran out. Fails if the assembly is rejected.
fn assembled(alloc: Global, answer: Result<Program, AsmError>) -> Result<CallAnswer> {
    match answer {
        Ok(program) => told_program(alloc, &program),
        Err(AsmError::Memory) => Ok(CallAnswer::Memory),
        Err(_) => bail!("assembly is refused"),
    }
}

/// Calls `disassemble` twice on the program of a campaign's traitors, and compares the results.
pub fn disassembles<R: Print + AllocGlobal>(
    rt: &R,
    campaign: SampleCampaign,
) -> Result<CallOutcome> {
    let program = campaign.program(rt.alloc())?;
    ready(rt);
    let first = disassemble(rt.alloc(), &program);
    back(rt);
    compared(
        disassembled(first),
        disassembled(disassemble(rt.alloc(), &program)),
    )
}

/// Returns the answer of `disassemble`: the assembly, or that memory ran out.
fn disassembled(answer: Result<String, AllocError>) -> CallAnswer {
    match answer {
        Ok(text) => CallAnswer::Bytes(text.into_bytes()),
        Err(_) => CallAnswer::Memory,
    }
}

/// Calls `verify` twice on the program of a campaign's traitors, and compares the results. If memory runs out in the
/// first call, `verify` is also called with the program that this call returned.
pub fn verifies<R: Print + AllocGlobal>(rt: &R, campaign: SampleCampaign) -> Result<CallOutcome> {
    let program = campaign.program(rt.alloc())?;
    ready(rt);
    let first = verify(rt.alloc(), program);
    back(rt);
    verifies_again(rt.alloc(), first, campaign)
}

/// Calls `verify` again with enough memory, and compares both results.
fn verifies_again(
    alloc: Global,
    first: Result<Verified, Refused>,
    campaign: SampleCampaign,
) -> Result<CallOutcome> {
    let is_refused = first.is_err();
    let first = judged(alloc, first)?;
    let outcome = compared(first, accepted(alloc, campaign.program(alloc)?)?)?;
    Ok(if is_refused {
        CallOutcome::Memory
    } else {
        outcome
    })
}

/// Returns the answer of `verify`: the program. If memory ran out, calls `verify` again with the program that it
/// returned.
fn judged(alloc: Global, answer: Result<Verified, Refused>) -> Result<CallAnswer> {
    match answer {
        Ok(verified) => told_program(alloc, verified.program()),
        Err(Refused { program, fault }) => given_again(alloc, program, fault),
    }
}

/// Calls `verify` again with the program that it returned because memory ran out. Fails if it returned the program
/// for another reason.
fn given_again(alloc: Global, program: Program, fault: VerifyError) -> Result<CallAnswer> {
    match fault {
        VerifyError::Memory => accepted(alloc, program),
        _ => bail!("a program is refused that is to be accepted"),
    }
}

/// Calls `verify` on a program, and returns the answer. Fails if the program is rejected.
fn accepted(alloc: Global, program: Program) -> Result<CallAnswer> {
    match verify(alloc, program) {
        Ok(verified) => told_program(alloc, verified.program()),
        Err(_) => bail!("a program is refused"),
    }
}

/// Returns a program as an answer: its assembly as bytes.
fn told_program(alloc: Global, program: &Program) -> Result<CallAnswer> {
    Ok(CallAnswer::Bytes(disassemble(alloc, program)?.into_bytes()))
}
