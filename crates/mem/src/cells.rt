//! Reads numbers from the cells of the stack, and checks whether cells are the pieces of a stored pointer.
ghost use Rattle.std.specs.Prelude.{◌≡◌, ◌+◌, ◌≤◌, ◌↔◌, IsTrue, take, drop};
ghost use Rattle.insn.specs.Insn.{bytes_of};
ghost use Rattle.semantics.specs.Memory.{are_pieces, is_same_region};
ghost use Rattle.mem.specs.Reading.{Reads, is_piece};

use crate::stack::Stack;
use insn::Size;
use semantics::{Cell, Region};

/// Returns the little-endian number in the `size` stack cells from index `place` on, or `None` if one of them is not a
/// byte.
pub fn read_number(stack: &Stack, place: usize, size: Size) -> Option<u64>
    requires { place + bytes_of size ≤ 512 }
    ensures { Reads stack.now place (bytes_of size) result }
{
    match size {
        Size::Byte => Some(u64::from(byte_at(stack, place)?)),
        Size::Half => Some(u64::from(half_at(stack, place)?)),
        Size::Word => Some(u64::from(word_at(stack, place)?)),
        Size::Double => double_at(stack, place),
    }
}

/// Returns the byte in the stack cell with index `place`, or `None` if the cell is not a byte.
fn byte_at(stack: &Stack, place: usize) -> Option<u8>
    requires { place + 1 ≤ 512 }
    ensures { Reads stack.now place 1 result }
{
    stack.recall();
    match stack.cell(place) {
        Cell::Byte(byte) => Some(byte),
        _ => None,
    }
}

/// Returns the 16-bit little-endian number in the 2 stack cells from index `place` on, or `None` if one of them is not
/// a byte.
fn half_at(stack: &Stack, place: usize) -> Option<u16>
    requires { place + 2 ≤ 512 }
    ensures { Reads stack.now place 2 result }
{
    stack.recall();
    let low = byte_at(stack, place)?;
    let high = byte_at(stack, place + 1)?;
    Some(u16::from(low) + 256 * u16::from(high))
}

/// Returns the 32-bit little-endian number in the 4 stack cells from index `place` on, or `None` if one of them is not
/// a byte.
pub fn word_at(stack: &Stack, place: usize) -> Option<u32>
    requires { place + 4 ≤ 512 }
    ensures { Reads stack.now place 4 result }
{
    stack.recall();
    let low = half_at(stack, place)?;
    let high = half_at(stack, place + 2)?;
    Some(u32::from(low) + 0x1_0000 * u32::from(high))
}

/// Returns the 64-bit little-endian number in the 8 stack cells from index `place` on, or `None` if one of them is not
/// a byte.
fn double_at(stack: &Stack, place: usize) -> Option<u64>
    requires { place + 8 ≤ 512 }
    ensures { Reads stack.now place 8 result }
{
    stack.recall();
    let low = word_at(stack, place)?;
    let high = word_at(stack, place + 4)?;
    Some(u64::from(low) + 0x1_0000_0000 * u64::from(high))
}

/// Checks whether two regions are the same.
fn same_region(a: Region, b: Region) -> bool
    ensures { result ≡ is_same_region a b }
{
    match (a, b) {
        (Region::Stack, Region::Stack) => true,
        (Region::Context, Region::Context) => true,
        _ => false,
    }
}

/// Checks whether a stack cell is piece `number`, 0 to 7, of the pointer into `region` with this offset.
fn is_piece(cell: Cell, number: u8, region: Region, offset: i32) -> bool
    ensures { result ≡ is_piece number region offset cell }
{
    match cell {
        Cell::Piece(i, other, at) => i == number && same_region(other, region) && at == offset,
        _ => false,
    }
}

/// Checks whether the 8 stack cells from index `place` on are the pieces, in order, of the pointer into `region` with
/// this offset.
pub fn are_pieces(stack: &Stack, place: usize, region: Region, offset: i32) -> bool
    requires { place + 8 ≤ 512 }
    ensures { result ≡ are_pieces region offset 0 (take 8 (drop place stack.now)) }
{
    stack.recall();
    for i in 0..8usize {
        if !is_piece(stack.cell(place + i), i as u8, region, offset) {
            return false;
        }
    }
    true
}

/// Checks whether two stack cells have the same content.
pub fn same_cell(cell: Cell, other: Cell) -> bool
    ensures { IsTrue result ↔ (cell ≡ other) }
{
    match (cell, other) {
        (Cell::Empty, Cell::Empty) => true,
        (Cell::Byte(byte), Cell::Byte(second)) => byte == second,
        (Cell::Piece(piece, region, offset), Cell::Piece(i, second, at)) => {
            piece == i && region == second && offset == at
        }
        _ => false,
    }
}
