//! Checks stored programs that are cut off or changed.
use crate::hostile_calls::bytecode::is_answered;
use crate::hostile_calls::changes::with_byte;
use anyhow::{Result, bail};
use asm::assemble;
use codec::encode;
use std::alloc::{AllocError, Global};
use std::fs;
use std::rt::Files;

/// A stored program: its name and its assembly.
#[derive(Drop)]
struct Program {
    name: String,
    text: String,
}

/// Checks all prefixes of the programs in these files, and copies of each program with one byte changed in three
/// ways. Fails unless all are decoded, verified and run as promised.
pub fn report<R: Print + Files + AllocGlobal>(rt: &R, files: &[String]) -> Result<()> {
    for file in files {
        report_file(rt, file.as_str())?;
    }
    Ok(())
}

/// Checks all prefixes and changed copies of the programs in one file.
fn report_file<R: Print + Files + AllocGlobal>(rt: &R, file: &str) -> Result<()> {
    let text = fs::read_to_string(rt, file)?;
    let programs = programs(rt.alloc(), text.as_str())?;
    let number = programs.len();
    answer_all(rt.alloc(), programs.as_slice())?;
    println!(rt; "{file}, {number} programs: each beginning and each change answered")?;
    Ok(())
}

/// Checks all prefixes and changed copies of these programs.
fn answer_all(alloc: Global, programs: &[Program]) -> Result<()> {
    for program in programs {
        let bytes = assembled(alloc, program.text.as_str())?;
        answer(alloc, program.name.as_str(), bytes.as_slice())?;
    }
    Ok(())
}

/// Splits a text into programs. A line such as `;; name` begins the next program.
fn programs(alloc: Global, text: &str) -> Result<Vec<Program>> {
    let mut programs = Vec::new(alloc);
    for line in text.lines() {
        match line.strip_prefix(";; ") {
            Some(name) => programs.push(Program {
                name: String::from_str(alloc, name)?,
                text: String::new(alloc),
            })?,
            None => add_line(&mut programs, line)?,
        }
    }
    Ok(programs)
}

/// Appends a line to the assembly of the last program. Fails if there is no program.
fn add_line(programs: &mut Vec<Program>, line: &str) -> Result<()> {
    let Some(program) = programs.last_mut() else {
        bail!("a line stands before the first program");
    };
    program.text.push_str(line)?;
    program.text.push('\n')?;
    Ok(())
}

/// Checks all prefixes and changed copies of one program. Fails unless all are decoded, verified and run as promised.
fn answer(alloc: Global, name: &str, bytes: &[u8]) -> Result<()> {
    if !are_answered(alloc, bytes)? {
        bail!("{name} is not answered as it should be");
    }
    Ok(())
}

/// Assembles a text and returns the bytecode.
fn assembled(alloc: Global, text: &str) -> Result<Vec<u8>> {
    match assemble(alloc, text) {
        Ok(program) => Ok(encode(alloc, &program)?),
        Err(_) => bail!("assembly is refused"),
    }
}

/// Checks whether all prefixes of a program are decoded, verified and run as promised, and also its copies with one
/// byte changed. A byte is replaced by 00, by ff, or by itself with its top bit inverted.
fn are_answered(alloc: Global, bytes: &[u8]) -> Result<bool, AllocError> {
    for place in 0..bytes.len() {
        let old = bytes[place];
        let is_well = is_answered(alloc, &bytes[..place])?
            && is_answered_with(alloc, bytes, place, 0x00)?
            && is_answered_with(alloc, bytes, place, 0xff)?
            && is_answered_with(alloc, bytes, place, old ^ 0x80)?;
        if !is_well {
            return Ok(false);
        }
    }
    is_answered(alloc, bytes)
}

/// Checks whether a copy of the program with `byte` at index `place` is decoded, verified and run as promised.
fn is_answered_with(
    alloc: Global,
    bytes: &[u8],
    place: usize,
    byte: u8,
) -> Result<bool, AllocError> {
    let changed = with_byte(alloc, bytes, place, byte)?;
    is_answered(alloc, changed.as_slice())
}
