//! The assembler of texts that may have units written as bytes.

ghost use Rattle.std.specs.Prelude.{◌≡◌, ◌≢◌, ◌≤◌, drop, length, IfOk, IfErr, Ok, Err};
ghost use Rattle.text.specs.Stop.{semicolon};
ghost use Rattle.text.specs.Parts.{before};
ghost use Rattle.asm.specs.declared.fault.AsmError.TheVariants.{Memory};
ghost use Rattle.asm.specs.Faults.{at_line};
ghost use Rattle.asm.specs.Program.{said};
ghost use Rattle.asm.specs.Reading.{alone, bytes_said, eight_of, line_bytes, raw_in, unit_in};

use crate::fault::{AsmError, AsmFault};
use crate::partial::lines::first_line;
use codec::encode;
use std::alloc::Global;
use text::{Stop, cut};

/// Assembles a text into bytes. A line has an instruction, or `.unit 0x..` with the 8 bytes of a unit in hexadecimal.
/// Each line is assembled by itself, so that a jump to a name on another line is a fault.
///
/// # Errors
///
/// The fault of the first line that has one, or `Memory` if out of memory.
#[tactic(auto, unfolding(crate::specs::Reading::bytes_said))]
pub fn assemble(alloc: Global, text: &str) -> Result<Vec<u8>, AsmError>
    ensures said { IfOk result (λ bytes. bytes_said text.now ≡ Ok bytes.items) }
    ensures fault { IfErr result (λ e. e ≢ Memory → bytes_said text.now ≡ Err e) }
{
    let mut bytes = Vec::new(alloc);
    let mut rest = text;
    let mut number = 1;
    while let Some((line, behind)) = first_line(rest) {
        let own = bytes_in(alloc, number, line)?;
        bytes.extend_from_slice(own.as_slice())?;
        rest = behind;
        number += 1;
    }
    Ok(bytes)
}

/// Assembles the line with number `number` into bytes. Fails with its fault, or with `Memory`.
fn bytes_in(alloc: Global, number: u64, line: &str) -> Result<Vec<u8>, AsmError>
    ensures said { IfOk result (λ bytes. line_bytes line.now ≡ Ok bytes.items) }
    ensures fault { IfErr result (λ e. e ≢ Memory → at_line number (line_bytes line.now) ≡ Err e) }
{
    let (_, solid) = cut(Stop::Solid, line.as_bytes());
    if solid.is_empty() || solid[0] != b'.' {
        return bytes_alone(alloc, number, line);
    }
    match raw(solid) {
        Ok(unit) => Ok(unit.to_vec(alloc)?),
        Err(fault) => Err(AsmError::At(fault, number)),
    }
}

/// Assembles a line that has no `.unit` into bytes. A line without an instruction gives no bytes. Fails with the line's
/// fault, or with `Memory`.
fn bytes_alone(alloc: Global, number: u64, line: &str) -> Result<Vec<u8>, AsmError>
    ensures said { IfOk result (λ bytes. alone (said line.now) ≡ Ok bytes.items) }
    ensures fault { IfErr result (λ e. e ≢ Memory → at_line number (alone (said line.now)) ≡ Err e) }
{
    match crate::assembler::assemble(alloc, line) {
        Ok(program) => Ok(encode(alloc, &program)?),
        Err(AsmError::At(AsmFault::Count, _)) => Ok(Vec::new(alloc)),
        Err(AsmError::At(fault, _)) => Err(AsmError::At(fault, number)),
        Err(AsmError::Memory) => Err(AsmError::Memory),
    }
}

/// Reads a line such as `.unit 0x0102030405060708`, which begins with a dot, and returns the 8 bytes. Fails with
/// `Mnemonic` or `Operand` if it does not have this form.
fn raw(solid: &[u8]) -> Result<[u8; 8], AsmFault>
    ensures said { IfOk result (λ unit. raw_in (before semicolon solid.now) ≡ Ok unit) }
    ensures fault { IfErr result (λ e. raw_in (before semicolon solid.now) ≡ Err e) }
{
    let (code, _) = cut(Stop::Byte(b';'), solid);
    let (word, rest) = cut(Stop::Blank, code);
    if word != b".unit".as_slice() {
        return Err(AsmFault::Mnemonic);
    }
    let (_, operand) = cut(Stop::Solid, rest);
    unit(operand)
}

/// Reads the operand of `.unit`, `0x` and sixteen hexadecimal digits, which white space may follow. Returns the 8
/// bytes. Fails with `Operand`.
fn unit(operand: &[u8]) -> Result<[u8; 8], AsmFault>
    ensures said { IfOk result (λ unit. unit_in operand.now ≡ Ok unit) }
    ensures fault { IfErr result (λ e. unit_in operand.now ≡ Err e) }
{
    let (number, rest) = cut(Stop::Blank, operand);
    let (_, behind) = cut(Stop::Solid, rest);
    if behind.is_empty() {
        eight(number)
    } else {
        Err(AsmFault::Operand)
    }
}

/// Reads `0x` and sixteen hexadecimal digits, and returns the 8 bytes. Fails with `Operand`.
fn eight(number: &[u8]) -> Result<[u8; 8], AsmFault>
    ensures said { IfOk result (λ unit. eight_of number.now ≡ Ok unit) }
    ensures fault { IfErr result (λ e. eight_of number.now ≡ Err e) }
{
    if !number.starts_with(b"0x") {
        return Err(AsmFault::Operand);
    }
    let mut unit = [0; 8];
    match hex::decode_to_slice(digits(number), &mut unit) {
        Ok(()) => Ok(unit),
        Err(_) => Err(AsmFault::Operand),
    }
}

/// Returns the text after its first two bytes.
fn digits(number: &[u8]) -> &[u8]
    requires { 2 ≤ length number.now }
    ensures { result.now ≡ drop 2 number.now }
{
    &number[2..]
}
