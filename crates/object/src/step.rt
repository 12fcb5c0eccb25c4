//! Reads the instructions of a line number program.
ghost use Rattle.std.specs.Prelude.{◌≡◌, ◌<◌, ◌≤◌, ◌-◌, ◌*◌, ◌^◌, length, IfSome};
ghost use Rattle.object.specs.Steps.{address_advance, special, by_number, advance_step, no_step, fixed_advance, alone, standard, extended_step, extended_of, extended, step_at};
ghost use Rattle.object.specs.Numbers.{unsigned_at, signed_at};

use crate::header::Header;
use crate::leb128::{Read, signed_at, unsigned_at};
use crate::number::{byte_at, half_at};

/// The effect of an instruction on the registers address, file and line.
#[derive(Clone, Copy)]
pub enum Step {
    /// Adds these numbers to the address and the line, modulo 2^64, and appends a row: a special opcode, or
    /// DW_LNS_copy.
    Row(u64, u64),
    /// Adds this number of bytes to the address, modulo 2^64.
    Address(u64),
    /// Adds this number to the line, modulo 2^64.
    Line(u64),
    /// Sets the file to this number.
    File(u64),
    /// Sets the address to the one that the operand at this byte index means.
    Start(usize),
    /// Appends a row that ends the sequence, and resets the registers.
    End,
    /// Changes neither the address, the file nor the line.
    Other,
}

/// An instruction that was read, and the byte index after it.
#[derive(Clone, Copy)]
pub struct Stepped {
    /// The instruction.
    pub step: Step,
    /// The byte index after the instruction.
    pub next: usize,
}

/// Returns the number of bytes that a special opcode adds to the address. `above` is the opcode's distance from the
/// first special opcode, `header.opcodes`.
fn address_advance(header: Header, above: u8) -> u64
    requires { 0 < header.range }
    ensures { result ≡ address_advance header above }
{
    u64::from(header.shortest) * u64::from(above / header.range)
}

/// Returns the effect of a special opcode. `above` is the opcode's distance from the first special opcode,
/// `header.opcodes`.
fn special(header: Header, above: u8) -> Step
    requires { 0 < header.range }
    ensures { result ≡ special header above }
{
    let line = header.base.wrapping_add(u64::from(above % header.range));
    Step::Row(address_advance(header, above), line)
}

/// Reads DW_LNS_advance_pc, whose operand is the LEB128 number at the byte index `place`. Returns `None` if there is no
/// such number.
fn advance_pc(header: Header, bytes: &[u8], place: usize) -> Option<Stepped>
    ensures read { result ≡ by_number (advance_step header) (unsigned_at place bytes.now) }
    ensures on { IfSome result (λ s. place < s.next) }
    ensures within { IfSome result (λ s. s.next ≤ length bytes.now) }
{
    let number = unsigned_at(bytes, place)?;
    let advance = u64::from(header.shortest).wrapping_mul(number.value);
    Some(Stepped {
        step: Step::Address(advance),
        next: number.next,
    })
}

/// Reads DW_LNS_advance_line, whose operand is the signed LEB128 number at the byte index `place`. Returns `None` if
/// there is no such number.
fn advance_line(bytes: &[u8], place: usize) -> Option<Stepped>
    ensures read { result ≡ by_number Step.Line (signed_at place bytes.now) }
    ensures on { IfSome result (λ s. place < s.next) }
    ensures within { IfSome result (λ s. s.next ≤ length bytes.now) }
{
    let number = signed_at(bytes, place)?;
    Some(Stepped {
        step: Step::Line(number.value),
        next: number.next,
    })
}

/// Reads DW_LNS_set_file, whose operand is the LEB128 number at the byte index `place`. Returns `None` if there is no
/// such number.
fn set_file(bytes: &[u8], place: usize) -> Option<Stepped>
    ensures read { result ≡ by_number Step.File (unsigned_at place bytes.now) }
    ensures on { IfSome result (λ s. place < s.next) }
    ensures within { IfSome result (λ s. s.next ≤ length bytes.now) }
{
    let number = unsigned_at(bytes, place)?;
    Some(Stepped {
        step: Step::File(number.value),
        next: number.next,
    })
}

/// Reads an opcode without an effect on address, file and line, whose operand is the LEB128 number at the byte index
/// `place`. Returns `None` if there is no such number.
fn pass_number(bytes: &[u8], place: usize) -> Option<Stepped>
    ensures read { result ≡ by_number no_step (unsigned_at place bytes.now) }
    ensures on { IfSome result (λ s. place < s.next) }
    ensures within { IfSome result (λ s. s.next ≤ length bytes.now) }
{
    let number = unsigned_at(bytes, place)?;
    Some(Stepped {
        step: Step::Other,
        next: number.next,
    })
}

/// Reads DW_LNS_fixed_advance_pc, whose operand is the 2 bytes at index `place`. Returns `None` if `bytes` does not
/// have both.
fn fixed_advance(bytes: &[u8], place: usize) -> Option<Stepped>
    ensures read { result ≡ fixed_advance place bytes.now }
    ensures on { IfSome result (λ s. place ≤ s.next) }
    ensures within { IfSome result (λ s. s.next ≤ length bytes.now) }
{
    if bytes.len() >= 2 && place <= bytes.len() - 2 {
        Some(Stepped {
            step: Step::Address(u64::from(half_at(bytes, place))),
            next: place + 2,
        })
    } else {
        None
    }
}

/// Reads the standard opcode `opcode`, whose operands begin at the byte index `place`. Returns `None` if the operand
/// that it needs is not there.
fn standard(header: Header, opcode: u8, bytes: &[u8], place: usize) -> Option<Stepped>
    requires range { 0 < header.range }
    requires opcodes { header.opcodes ≤ 13 }
    requires place { place ≤ length bytes.now }
    ensures read { result ≡ standard header opcode place bytes.now }
    ensures on { IfSome result (λ s. place ≤ s.next) }
    ensures within { IfSome result (λ s. s.next ≤ length bytes.now) }
{
    if opcode == 2 {
        return advance_pc(header, bytes, place);
    }
    if opcode == 3 {
        return advance_line(bytes, place);
    }
    if opcode == 4 {
        return set_file(bytes, place);
    }
    if opcode == 5 || opcode == 12 {
        return pass_number(bytes, place);
    }
    if opcode == 9 {
        return fixed_advance(bytes, place);
    }
    Some(Stepped {
        step: alone(header, opcode),
        next: place,
    })
}

/// Returns the effect of a standard opcode without operands.
fn alone(header: Header, opcode: u8) -> Step
    requires range { 0 < header.range }
    requires opcodes { header.opcodes ≤ 13 }
    ensures { result ≡ alone header opcode }
{
    if opcode == 1 {
        Step::Row(0, 0)
    } else if opcode == 8 {
        Step::Address(address_advance(header, 255 - header.opcodes))
    } else {
        Step::Other
    }
}

/// Returns the effect of an extended opcode. `size` is the number of bytes of the opcode and its operands, which begin
/// at the byte index `place`.
fn extended_step(size: u64, opcode: u8, place: usize) -> Step
    ensures { result ≡ extended_step size opcode place }
{
    if opcode == 1 {
        Step::End
    } else if opcode == 2 && size == 9 {
        Step::Start(place)
    } else {
        Step::Other
    }
}

/// Reads an extended opcode. `size.value` is the number of bytes of the opcode and its operands, and `size.next` the
/// byte index of the opcode. Returns `None` if the size is 0 or they do not end within `bytes`.
fn extended_of(bytes: &[u8], size: Read) -> Option<Stepped>
    requires { size.next ≤ length bytes.now }
    ensures read { result ≡ extended_of bytes.now size }
    ensures on { IfSome result (λ s. size.next < s.next) }
    ensures within { IfSome result (λ s. s.next ≤ length bytes.now) }
{
    let left = (bytes.len() - size.next) as u64;
    if size.value == 0 || size.value > left {
        return None;
    }
    Some(Stepped {
        step: extended_step(size.value, byte_at(bytes, size.next), size.next + 1),
        next: size.next + size.value as usize,
    })
}

/// Reads an extended opcode. The byte index `place` is that of its size, a LEB128 number. Returns `None` if the
/// instruction is not complete.
fn extended(bytes: &[u8], place: usize) -> Option<Stepped>
    ensures read { result ≡ extended place bytes.now }
    ensures on { IfSome result (λ s. place < s.next) }
    ensures within { IfSome result (λ s. s.next ≤ length bytes.now) }
{
    let size = unsigned_at(bytes, place)?;
    extended_of(bytes, size)
}

/// Reads the instruction at the byte index `place`. Returns `None` if it does not end within `bytes`.
#[tactic(auto, unfolding(crate::specs::Steps::step_at))]
pub fn step_at(header: Header, bytes: &[u8], place: usize) -> Option<Stepped>
    requires range { 0 < header.range }
    requires opcodes { header.opcodes ≤ 13 }
    requires place { place < length bytes.now }
    ensures read { result ≡ step_at header place bytes.now }
    ensures on { IfSome result (λ s. place < s.next) }
    ensures within { IfSome result (λ s. s.next ≤ length bytes.now) }
{
    let opcode = byte_at(bytes, place);
    if opcode >= header.opcodes {
        return Some(Stepped {
            step: special(header, opcode - header.opcodes),
            next: place + 1,
        });
    }
    if opcode == 0 {
        return extended(bytes, place + 1);
    }
    standard(header, opcode, bytes, place + 1)
}
