//! Reads and writes numbers of 1, 2, 4 or 8 bytes in little-endian order.
ghost use Rattle.std.specs.Prelude.{◌≡◌, ◌+◌, ◌≤◌, take, drop, length};
ghost use Rattle.word.specs.Bytes.{little_bytes, little_number};
ghost use Rattle.insn.specs.Insn.{bytes_of};
ghost use Rattle.mem.specs.Layout.{replaced};

use byteorder::{ByteOrder, LittleEndian};
use insn::Size;
use word::low_bits::{low_byte, low_half, low_word};

/// Returns the little-endian number in the `size` bytes from index `place` on.
#[inline(always)]
pub fn number_at(bytes: &[u8], place: usize, size: Size) -> u64
    requires { place + bytes_of size ≤ length bytes.now }
    ensures { result ≡ little_number (take (bytes_of size) (drop place bytes.now)) }
{
    let part = &bytes[place..];
    match size {
        Size::Byte => u64::from(part[0]),
        Size::Half => u64::from(LittleEndian::read_u16(part)),
        Size::Word => u64::from(LittleEndian::read_u32(part)),
        Size::Double => LittleEndian::read_u64(part),
    }
}

/// Writes the low `size` bytes of a number from index `place` on, in little-endian order.
#[inline(always)]
pub fn put(bytes: &mut [u8; 512], place: usize, size: Size, number: u64)
    requires { place + bytes_of size ≤ 512 }
    ensures { bytes.new ≡ replaced bytes.old place (little_bytes (bytes_of size) number) }
{
    let part = &mut bytes[place..];
    match size {
        Size::Byte => part[0] = low_byte(number),
        Size::Half => LittleEndian::write_u16(part, low_half(number)),
        Size::Word => LittleEndian::write_u32(part, low_word(number)),
        Size::Double => LittleEndian::write_u64(part, number),
    }
}
