//! Makes random programs, and checks what the layers promise for any bytes.
use crate::hostile_calls::changes::stepped;
use anyhow::{Result, bail};
use codec::{CodecError, decode, encode};
use insn::Program;
use std::alloc::{AllocError, Global};
use trial::{Setting, run_in};
use verify::{Verified, VerifyError, verify};

/// The number of random programs that are checked.
const PROGRAMS: u64 = 10_000;

/// Checks random programs. Fails if one of them is not decoded, verified and run as promised.
pub fn report<R: Print + AllocGlobal>(rt: &R) -> Result<()> {
    if !are_answered(rt.alloc())? {
        bail!("a program is not answered as it should be");
    }
    println!(rt; "{PROGRAMS} programs by chance: each answered")?;
    Ok(())
}

/// Checks whether all random programs are decoded, verified and run as promised.
fn are_answered(alloc: Global) -> Result<bool, AllocError> {
    for number in 1..=PROGRAMS {
        if !is_answered(alloc, generated(alloc, number)?.as_slice())? {
            return Ok(false);
        }
    }
    Ok(true)
}

/// Returns the bytes of the random program with this number, which has 1 to 32 units. Each byte is the top 8 bits of
/// a random generator's state.
fn generated(alloc: Global, number: u64) -> Result<Vec<u8>, AllocError> {
    let mut bytes = Vec::new(alloc);
    let mut state = number;
    for _ in 0..8 * (1 + number % 32) {
        state = stepped(state);
        let [byte, ..] = state.to_be_bytes();
        bytes.push(byte)?;
    }
    Ok(bytes)
}

/// Checks whether these bytes are decoded, verified and run as promised. If they are a program, encoding it must give
/// the same bytes. If the program is accepted, its run must end within as many steps as it has instructions.
pub fn is_answered(alloc: Global, bytes: &[u8]) -> Result<bool, AllocError> {
    match decode(alloc, bytes) {
        Ok(program) => Ok(is_spelt(alloc, &program, bytes)? && is_judged(alloc, program)?),
        Err(CodecError::Memory) => Err(AllocError),
        Err(_) => Ok(true),
    }
}

/// Checks whether encoding the program gives these bytes.
fn is_spelt(alloc: Global, program: &Program, bytes: &[u8]) -> Result<bool, AllocError> {
    let spelt = encode(alloc, program)?;
    Ok(spelt.as_slice() == bytes)
}

/// Checks whether the program is rejected, or its run ends within as many steps as it has instructions.
fn is_judged(alloc: Global, program: Program) -> Result<bool, AllocError> {
    match verify(alloc, program) {
        Ok(verified) => ends_in_time(alloc, &verified),
        Err(refused) => {
            if refused.fault == VerifyError::Memory {
                return Err(AllocError);
            }
            Ok(true)
        }
    }
}

/// Checks whether the program's run ends within as many steps as it has instructions.
fn ends_in_time(alloc: Global, verified: &Verified) -> Result<bool, AllocError> {
    let exited = run_in(alloc, verified, &Setting::bench(alloc))?;
    Ok(exited.activation.steps() as usize <= verified.program().len())
}
