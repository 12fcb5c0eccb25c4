//! Finds the addresses that the operands of a line number program mean, by the relocations of .debug_line.
ghost use Rattle.std.specs.Prelude.{◌≡◌, ◌<◌, ◌≤◌, ◌+◌, ◌*◌, ◌/◌, ◌^◌, length};
ghost use Rattle.object.specs.First.{first_some};
ghost use Rattle.object.specs.Origin.{addend_of, address_in, origin_here, origin_of};

use crate::number::double_at;
use crate::relocation::Relocation;
use crate::symbol::Symbol;

/// Returns the number that the relocation with this index adds to its symbol's value. A relocation of `size` 16 bytes
/// has this number in `bytes` at index `place`, and one of 24 bytes has it in itself.
fn addend_of(bytes: &[u8], size: usize, relocations: &[u8], index: usize, place: usize) -> u64
    requires { size * index + 24 < 2 ^ 64 }
    ensures { result ≡ addend_of size index relocations.now place bytes.now }
{
    if size == 16 {
        double_at(bytes, place)
    } else {
        double_at(relocations, size * index + 16)
    }
}

/// Returns the symbol's value plus `addend`, modulo 2^64, as an address in the section with the number `section`.
/// Returns `None` if the symbol is not in that section.
fn address_in(section: u16, symbol: Symbol, addend: u64) -> Option<u64>
    ensures { result ≡ address_in section symbol addend }
{
    if symbol.section == section {
        Some(symbol.value.wrapping_add(addend))
    } else {
        None
    }
}

/// Returns the address that the relocation with this index gives to the operand at the byte index `place`. Returns
/// `None` if the relocation is not of this operand, or its symbol is not in the section with the number `section`.
fn origin_here(
    bytes: &[u8],
    symbols: &[u8],
    section: u16,
    size: usize,
    relocations: &[u8],
    place: usize,
    index: usize,
) -> Option<u64>
    requires { size * index + 24 < 2 ^ 64 }
    ensures { result ≡ origin_here bytes.now symbols.now section size relocations.now place index }
{
    let relocation = Relocation::read(relocations, size, index);
    if relocation.place != place as u64 {
        return None;
    }
    let symbol = Symbol::read(symbols, relocation.symbol as usize);
    let addend = addend_of(bytes, size, relocations, index, place);
    address_in(section, symbol, addend)
}

/// Returns the address that the relocations give to the operand at the byte index `place`. Returns `None` if no
/// relocation is of this operand with a symbol in the section with the number `section`.
pub fn origin_of(
    bytes: &[u8],
    symbols: &[u8],
    section: u16,
    size: usize,
    relocations: &[u8],
    place: usize,
) -> Option<u64>
    requires least { 16 ≤ size }
    requires most { size ≤ 24 }
    requires few { length relocations.now ≤ 65536 }
    ensures { result ≡ origin_of bytes.now symbols.now section size relocations.now place }
{
    for index in 0..relocations.len() / size {
        match origin_here(bytes, symbols, section, size, relocations, place, index) {
            Some(address) => return Some(address),
            None => {}
        }
    }
    None
}
