//! The disassembler of bytecode that cannot be decoded completely.

ghost use Rattle.std.specs.Prelude.{◌≡◌, ◌≢◌, ◌<◌, ◌≤◌, ◌/◌, ◌%◌, ◌++◌, codes, drop, length, slice_index, string_bytes, IfOk, IfErr, OnOk, Ok};
ghost use Rattle.codec.specs.declared.fault.CodecFault.TheVariants.{Length};
ghost use Rattle.codec.specs.declared.fault.CodecError.TheVariants.{At, Memory};
ghost use Rattle.asm.specs.Pieces.{Piece, Raw, IsFirst};
ghost use Rattle.asm.specs.PieceText.{IsTextOf, kind_of, piece_text};
ghost use Rattle.asm.specs.Reading.{bytes_said};

use crate::printer::put_instruction;
use codec::{CodecError, CodecFault, instruction};
use std::alloc::{AllocError, Global};

/// Returns bytecode as text, with one instruction on each line. A unit at which no instruction can be decoded becomes a
/// line `.unit 0x..`, with its 8 bytes in hexadecimal and the code of the fault. [`crate::partial::assemble`] turns the
/// text back into the same bytes.
///
/// # Errors
///
/// `Length` if the number of bytes is not a multiple of 8. `Memory` if out of memory.
pub fn disassemble(alloc: Global, bytes: &[u8]) -> Result<String, CodecError>
    ensures text { IfOk result (λ text. IsTextOf bytes.now (string_bytes text)) }
    // The text assembles to these bytes.
    ensures again { IfOk result (λ text. bytes_said (string_bytes text) ≡ Ok bytes.now) }
    ensures cut { IfErr result (λ e. e ≢ Memory → length bytes.now % 8 ≢ 0) }
    ensures fault { IfErr result (λ e. e ≢ Memory → e ≡ At Length (length bytes.now / 8)) }
{
    if bytes.len() % 8 != 0 {
        return Err(CodecError::At(CodecFault::Length, bytes.len() / 8));
    }
    Ok(text_of(alloc, bytes)?)
}

/// Returns bytecode as text. The number of bytes must be a multiple of 8. Fails with `AllocError` if out of memory.
fn text_of(alloc: Global, bytes: &[u8]) -> Result<String, AllocError>
    requires { length bytes.now % 8 ≡ 0 }
    ensures text { IfOk result (λ text. IsTextOf bytes.now (string_bytes text)) }
    ensures again { IfOk result (λ text. bytes_said (string_bytes text) ≡ Ok bytes.now) }
{
    let mut text = String::new(alloc);
    let mut rest = bytes;
    while !rest.is_empty() {
        let size = put_line(alloc, &mut text, rest)?;
        rest = behind(rest, size);
    }
    Ok(text)
}

/// Returns the bytes after the first `size`.
fn behind(bytes: &[u8], size: usize) -> &[u8]
    requires { size ≤ length bytes.now }
    ensures { result.now ≡ drop size bytes.now }
{
    &bytes[size..]
}

/// Appends the line of the instruction at the beginning of `bytes`, or of the unit there if it cannot be decoded.
/// Returns the number of bytes written: 8 or 16.
fn put_line(alloc: Global, text: &mut String, bytes: &[u8]) -> Result<usize, AllocError>
    requires { 8 ≤ length bytes.now }
    ensures some { IfOk result (λ size. 0 < size) }
    ensures inside { IfOk result (λ size. size ≤ length bytes.now) }
    ensures whole { IfOk result (λ size. size % 8 ≡ 0) }
    ensures piece { IfOk result (λ size. (piece : Piece) × IsFirst bytes.now piece (drop size bytes.now)
        × (string_bytes text.new ≡ string_bytes text.old ++ (piece_text piece ++ codes "\n"))) }
{
    let size = put_piece(alloc, text, bytes)?;
    text.push_str("\n")?;
    Ok(size)
}

/// Appends the instruction at the beginning of `bytes` as text, or the unit there if it cannot be decoded. Returns the
/// number of bytes written: 8 or 16.
fn put_piece(alloc: Global, text: &mut String, bytes: &[u8]) -> Result<usize, AllocError>
    requires { 8 ≤ length bytes.now }
    ensures some { IfOk result (λ size. 0 < size) }
    ensures inside { IfOk result (λ size. size ≤ length bytes.now) }
    ensures whole { IfOk result (λ size. size % 8 ≡ 0) }
    ensures piece { IfOk result (λ size. (piece : Piece) × IsFirst bytes.now piece (drop size bytes.now)
        × (string_bytes text.new ≡ string_bytes text.old ++ piece_text piece)) }
{
    match instruction(bytes) {
        Ok(insn) => {
            put_instruction(text, &insn)?;
            Ok(8 * insn.units() as usize)
        }
        Err(fault) => {
            put_raw(alloc, text, &bytes[..8], fault)?;
            Ok(8)
        }
    }
}

/// Appends a unit that cannot be decoded, such as `.unit 0x0102030405060708 ; C2`, with the code of the fault.
fn put_raw(
    alloc: Global,
    text: &mut String,
    unit: &[u8],
    fault: CodecFault,
) -> Result<(), AllocError>
    requires { 0 < length unit.now }
    ensures { OnOk result (string_bytes text.new ≡ string_bytes text.old ++ piece_text (Raw unit.now fault)) }
{
    let digits = hex::encode(alloc, unit)?;
    let kind = kind(fault, unit[0]);
    write!(text, ".unit 0x{digits} ; {fault}{kind}")
}

/// Returns what an unsupported instruction is, by its opcode, such as ` call`. Returns the empty text for other faults.
fn kind(fault: CodecFault, opcode: u8) -> &'static str
    ensures { result.now ≡ kind_of fault opcode }
{
    match fault {
        CodecFault::LeftOut => left_out(opcode),
        _ => "",
    }
}

/// Returns what an unsupported instruction is, by its opcode, such as ` call`.
fn left_out(opcode: u8) -> &'static str
    ensures { result.now ≡ kind_of CodecFault.LeftOut opcode }
{
    match opcode {
        0x18 => " wide load",
        0x85 => " call",
        0xc3 => " atomic32",
        0xdb => " atomic64",
        _ => " packet",
    }
}
