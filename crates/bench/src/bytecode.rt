//! Builds the bytecode of the programs that are timed.
use crate::shape::MeasuredProgram;
use anyhow::Result;
use asm::assemble;
use codec::encode;
use std::alloc::{AllocError, Global};

/// The number of units (of 8 bytes) of each timed program, which is the most that a program may have.
pub const UNITS: usize = 4096;

/// Returns the bytecode of a timed program, 4,096 units of 8 bytes.
pub fn bytecode(alloc: Global, shape: &MeasuredProgram) -> Result<Vec<u8>> {
    let text = assembly(alloc, shape)?;
    let program = assemble(alloc, text.as_str())?;
    Ok(encode(alloc, &program)?)
}

/// Returns the assembly of a timed program: 4,095 lines that `shape` gives, and `exit`.
fn assembly(alloc: Global, shape: &MeasuredProgram) -> Result<String, AllocError> {
    let mut text = String::new(alloc);
    for unit in 0..UNITS - 1 {
        text.push_str(shape.line(unit))?;
        text.push('\n')?;
    }
    text.push_str("exit\n")?;
    Ok(text)
}
