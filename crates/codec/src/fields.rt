//! The fields of a unit, which has 64 bits: reads them from bytes, and writes them as bytes.
ghost use Rattle.std.specs.Prelude.{◌≡◌, ◌≤◌, ◌<◌, [], ◌∷◌, length, slice_index, IfOk, IfErr, Some, Bool, List};
ghost use Rattle.std.specs.Int.{w16, w32, from_le_bytes, to_le_bytes};
ghost use Rattle.codec.specs.declared.fault.CodecFault.{CodecFault as FaultValue};
ghost use Rattle.codec.specs.Reading.{fields_of, first_fault, is_past, is_set};
ghost use Rattle.codec.specs.Spelling.{unit_bytes};

use crate::fault::CodecFault;
use byteorder::{ByteOrder, LittleEndian};
use insn::Reg;

/// The fields of a 64-bit unit, as unsigned numbers (RFC 9669, section 3.1):
///
/// ```text
/// byte   0        1            2  3     4  5  6  7
///        opcode   src:4 dst:4  offset   imm
/// ```
#[derive(Clone, Copy)]
pub struct Fields {
    pub opcode: u8,
    pub dst: u8,
    pub src: u8,
    pub offset: u16,
    pub imm: u32,
}

/// Reads the fields of the unit in the first 8 of these bytes.
#[inline(always)]
pub fn read_fields(bytes: &[u8]) -> Fields
    requires { 8 ≤ length bytes.now }
    ensures { result ≡ fields_of bytes.now }
{
    Fields {
        opcode: bytes[0],
        dst: bytes[1] % 16,
        src: bytes[1] / 16,
        offset: read_half(&bytes[2..]),
        imm: read_word(&bytes[4..]),
    }
}

/// Returns the little-endian number in the first two bytes.
fn read_half(bytes: &[u8]) -> u16
    requires { 2 ≤ length bytes.now }
    ensures { result ≡ from_le_bytes w16 (slice_index bytes.now 0 ∷ slice_index bytes.now 1 ∷ []) }
{
    LittleEndian::read_u16(bytes)
}

/// Returns the little-endian number in the first four bytes.
fn read_word(bytes: &[u8]) -> u32
    requires { 4 ≤ length bytes.now }
    ensures { result ≡ from_le_bytes w32
        (slice_index bytes.now 0 ∷ slice_index bytes.now 1 ∷ slice_index bytes.now 2 ∷ slice_index bytes.now 3 ∷ []) }
{
    LittleEndian::read_u32(bytes)
}

/// Returns the 8 bytes of a unit with these fields. `dst` and `src` must be below 16.
pub fn to_bytes(fields: Fields) -> [u8; 8]
    requires dst { fields.dst < 16 }
    requires src { fields.src < 16 }
    ensures { result ≡ unit_bytes fields }
{
    let offset = half_bytes(fields.offset);
    let imm = word_bytes(fields.imm);
    [
        fields.opcode,
        fields.dst + 16 * fields.src,
        offset[0],
        offset[1],
        imm[0],
        imm[1],
        imm[2],
        imm[3],
    ]
}

/// Returns the two bytes of a number in little-endian order.
fn half_bytes(n: u16) -> [u8; 2]
    ensures { result ≡ to_le_bytes w16 n }
{
    let mut bytes = [0; 2];
    LittleEndian::write_u16(&mut bytes, n);
    bytes
}

/// Returns the four bytes of a number in little-endian order.
fn word_bytes(n: u32) -> [u8; 4]
    ensures { result ≡ to_le_bytes w32 n }
{
    let mut bytes = [0; 4];
    LittleEndian::write_u32(&mut bytes, n);
    bytes
}

/// Returns the register with this number. Fails with `Register` if the number is above 10.
pub fn used(number: u8) -> Result<Reg, CodecFault>
    ensures found { IfOk result (λ r. (r ≡ number) × (number ≤ 10)) }
    ensures fault { IfErr result (λ e. (e ≡ CodecFault.Register) × (10 < number)) }
{
    Reg::new(number).ok_or(CodecFault::Register)
}

/// Returns the register in the field `dst` of an instruction that does not use `src`. Fails with `Register` if `dst` is
/// above 10, and otherwise with `Reserved` if `src` is not zero. The two fields share a byte, so that one comparison
/// checks both.
#[inline(always)]
pub fn alone(fields: Fields) -> Result<Reg, CodecFault>
    ensures found { IfOk result (λ r. (r ≡ fields.dst) × (fields.dst ≤ 10) × (fields.src ≡ 0)) }
    ensures fault { (more : List (Bool × FaultValue)) → IfErr result (λ e.
        first_fault ((is_past fields.dst, CodecFault.Register) ∷ (is_set fields.src, CodecFault.Reserved) ∷ more) ≡ Some e) }
{
    if fields.dst as u16 + 16 * fields.src as u16 > 10 {
        used(fields.dst)?;
        return Err(CodecFault::Reserved);
    }
    used(fields.dst)
}
