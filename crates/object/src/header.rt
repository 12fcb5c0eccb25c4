//! Reads the header of a line number program (DWARF 5 and 4).
ghost use Rattle.std.specs.Prelude.{◌≡◌, ◌<◌, ◌≤◌, ◌^◌, length, IfSome};
ghost use Rattle.object.specs.Header.{fields_of, widened, header_from, header_in, is_read, header_of};

use crate::number::{byte_at, half_at, word_at};

/// The fields of a line number program's header that are needed to find the file and line of an address.
#[derive(Clone, Copy)]
pub struct Header {
    /// The version: 4 or 5.
    pub version: u16,
    /// The field minimum_instruction_length: the number of bytes by which an advance of 1 moves the address.
    pub shortest: u8,
    /// The field line_base, a signed number, modulo 2^64.
    pub base: u64,
    /// The field line_range.
    pub range: u8,
    /// The field opcode_base: one more than the number of standard opcodes.
    pub opcodes: u8,
    /// The byte index of the tables of directories and files.
    pub tables: usize,
    /// The byte index at which the instructions begin.
    pub program: usize,
    /// The byte index after the last instruction.
    pub end: usize,
}

/// Returns the byte index of the field minimum_instruction_length in this version of DWARF.
fn fields_of(version: u16) -> usize
    ensures place { result ≡ fields_of version }
    ensures low { 10 ≤ result }
    ensures high { result ≤ 12 }
{
    if version == 5 { 12 } else { 10 }
}

/// Returns a byte as a signed number from -128 to 127, modulo 2^64.
fn widened(byte: u8) -> u64
    ensures { result ≡ widened byte }
{
    if byte < 128 {
        u64::from(byte)
    } else {
        u64::from(byte) + (u64::MAX - 255)
    }
}

/// Reads the header of a line number program, in this version of DWARF. `fields` is the byte index of its field
/// minimum_instruction_length.
fn header_from(bytes: &[u8], version: u16, fields: usize) -> Header
    requires low { 10 ≤ fields }
    requires high { fields ≤ 12 }
    ensures { result ≡ header_from version fields bytes.now }
{
    let opcodes = byte_at(bytes, fields + 5);
    Header {
        version,
        shortest: byte_at(bytes, fields),
        base: widened(byte_at(bytes, fields + 3)),
        range: byte_at(bytes, fields + 4),
        opcodes,
        tables: fields + 5 + usize::from(opcodes),
        program: fields + word_at(bytes, fields - 4) as usize,
        end: 4 + word_at(bytes, 0) as usize,
    }
}

/// Returns whether a header is supported, and its program is within the bytes. Supported are versions 4 and 5 with one
/// operation an instruction, a line_range above 0, and an opcode_base from 1 to 13.
fn is_read(header: Header, bytes: &[u8]) -> bool
    ensures { result ≡ is_read header bytes.now }
{
    (header.version == 4 || header.version == 5)
        && byte_at(bytes, fields_of(header.version) + 1) == 1
        && header.range > 0
        && header.opcodes > 0
        && header.opcodes <= 13
        && header.tables <= header.program
        && header.program <= header.end
        && header.end <= bytes.len()
}

/// Returns the header of the first line number program in `bytes`, or `None` if it is not supported or its program is
/// not within `bytes`.
pub fn header_of(bytes: &[u8]) -> Option<Header>
    ensures read { result ≡ header_of bytes.now }
    ensures range { IfSome result (λ header. 0 < header.range) }
    ensures opcodes { IfSome result (λ header. header.opcodes ≤ 13) }
    ensures begins { IfSome result (λ header. header.program ≤ header.end) }
    ensures ends { IfSome result (λ header. header.end ≤ length bytes.now) }
    ensures tables { IfSome result (λ header. header.tables ≤ header.program) }
{
    let version = half_at(bytes, 4);
    let header = header_from(bytes, version, fields_of(version));
    if is_read(header, bytes) {
        Some(header)
    } else {
        None
    }
}
