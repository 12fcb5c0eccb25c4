//! The stack: 512 cells that a program reads and writes. A cell is empty, a byte, or a piece of a stored pointer.
ghost use Rattle.std.specs.Prelude.{◌≡◌, ◌+◌, ◌<◌, ◌≤◌, ◌↔◌, IsTrue, replicate, take, drop, map, length, slice_index_or, IsOk, Ok};
ghost use Rattle.word.specs.Bytes.{little_bytes};
ghost use Rattle.insn.specs.Insn.{bytes_of};
ghost use Rattle.semantics.specs.Memory.{value_in, overwritten, pieces_of};
ghost use Rattle.mem.specs.Answers.{IsAnswer};
ghost use Rattle.mem.specs.Reading.{number_in};
ghost use Rattle.mem.specs.Layout.{region_of, pieces};

use crate::byte_order::{number_at, put};
use crate::cells::{are_pieces, read_number, same_cell, word_at};
use crate::fault::MemoryFault;
use insn::Size;
use semantics::{Cell, Region, Value};
use std::marker::Model;

/// A stack: the 512 cells that a program reads and writes. Contracts see it as a list of cells.
#[derive(Drop)]
pub struct Stack {
    /// The kind of each cell: 0 if it is empty, and 1 if it is a byte. The pieces of a pointer into the stack have the
    /// kinds 2 to 9, and those of a pointer into the context 10 to 17.
    kinds: [u8; 512],
    /// The byte in each cell. It has no meaning if the cell is not a byte.
    bytes: [u8; 512],
    /// For each cell, the offset of the pointer whose first piece was last stored there.
    offsets: [u32; 512],
}

impl Model for Stack {
    ghost use Rattle.std.specs.Prelude.{List};
    ghost use Rattle.semantics.specs.declared.value.Cell.{Cell};
    ghost use Rattle.mem.specs.Layout.{cells_from, HasRoom};

    ghost Value = { List Cell };

    ghost view = { λ s. cells_from s.kinds s.bytes s.offsets 0 512 };

    ghost invariant = { λ s. HasRoom s.kinds s.bytes s.offsets };
}

/// The kind of a cell that is a byte.
const BYTE: u8 = 1;

/// The kind of a cell that is the first piece of a pointer into the stack.
const PIECE: u8 = 2;

/// The kinds of 8 cells that are bytes, as one number.
const BYTES: u64 = 0x0101_0101_0101_0101;

/// The kinds of the 8 pieces of a pointer into the stack, as one little-endian number.
const STACK_PIECES: u64 = 0x0908_0706_0504_0302;

/// The kinds of the 8 pieces of a pointer into the context, as one little-endian number.
const CONTEXT_PIECES: u64 = 0x1110_0f0e_0d0c_0b0a;

impl Stack {
    /// The number of cells.
    pub const CELLS: usize = 512;

    /// Returns a stack of empty cells.
    pub fn new() -> Stack
        ensures { result ≡ replicate 512 Cell.Empty }
    {
        Stack {
            kinds: [0; 512],
            bytes: [0; 512],
            offsets: [0; 512],
        }
    }

    /// Empties all cells. Only their kinds are written, because nothing else is read of an empty cell.
    pub fn clear(&mut self)
        ensures { self.new ≡ replicate 512 Cell.Empty }
    {
        self.kinds = [0; 512];
    }

    /// Does nothing. Its contract states that a stack has 512 cells.
    pub(crate) fn recall(&self)
        ensures { length self.now ≡ 512 }
    {
        let _ = &self.kinds;
    }

    /// Returns a copy of the stack.
    pub fn copy(&self) -> Stack
        ensures { result ≡ self.now }
    {
        Stack {
            kinds: self.kinds,
            bytes: self.bytes,
            offsets: self.offsets,
        }
    }

    /// Checks whether all cells have the same content as those of `other`.
    pub fn same(&self, other: &Stack) -> bool
        ensures { IsTrue result ↔ (self.now ≡ other.now) }
    {
        self.recall();
        other.recall();
        for place in 0..512usize {
            if !same_cell(self.cell(place), other.cell(place)) {
                return false;
            }
        }
        true
    }

    /// Returns the cell with index `place`, 0 to 511.
    pub(crate) fn cell(&self, place: usize) -> Cell
        requires { place < 512 }
        ensures { result ≡ slice_index_or self.now place Cell.Empty }
    {
        let kind = self.kinds[place];
        if kind == 0 {
            return Cell::Empty;
        }
        if kind == BYTE {
            return Cell::Byte(self.bytes[place]);
        }
        let piece = (kind - PIECE) % 8;
        let first = place.saturating_sub(piece as usize);
        Cell::Piece(piece, region_of(kind), self.offsets[first].cast_signed())
    }

    /// Loads the number or the pointer in the `size` cells from index `place` on. Fails with `NoBytes` if there is
    /// neither.
    pub(crate) fn value(&self, place: usize, size: Size) -> Result<Value, MemoryFault>
        requires { place + bytes_of size ≤ 512 }
        ensures { IsAnswer (value_in (take (bytes_of size) (drop place self.now))) result }
    {
        self.recall();
        match self.cell(place) {
            Cell::Empty => Err(MemoryFault::NoBytes),
            Cell::Byte(_) => Ok(Value::Number(self.number(place, size)?)),
            Cell::Piece(_, region, offset) => match size {
                Size::Double => {
                    if are_pieces(self, place, region, offset) {
                        Ok(Value::Pointer(region, offset))
                    } else {
                        Err(MemoryFault::NoBytes)
                    }
                }
                _ => Err(MemoryFault::NoBytes),
            },
        }
    }

    /// Loads the little-endian number in the `size` cells from index `place` on. Fails with `NoBytes` if one of them is
    /// not a byte.
    pub(crate) fn number(&self, place: usize, size: Size) -> Result<u64, MemoryFault>
        requires { place + bytes_of size ≤ 512 }
        ensures { IsAnswer (number_in (take (bytes_of size) (drop place self.now))) result }
    {
        match read_number(self, place, size) {
            Some(number) => Ok(number),
            None => Err(MemoryFault::NoBytes),
        }
    }

    /// Loads the little-endian number in the 4 cells from index `place` on. Fails with `NoBytes` if one of them is not
    /// a byte.
    pub(crate) fn word(&self, place: usize) -> Result<u32, MemoryFault>
        requires { place + 4 ≤ 512 }
        ensures { IsAnswer (number_in (take 4 (drop place self.now))) result }
    {
        match word_at(self, place) {
            Some(number) => Ok(number),
            None => Err(MemoryFault::NoBytes),
        }
    }

    /// Loads the number or the pointer in the `size` cells from index `place` on. The caller must know that there is
    /// one.
    #[inline(always)]
    pub(crate) fn known_value(&self, place: usize, size: Size) -> Value
        requires inside { place + bytes_of size ≤ 512 }
        requires known { IsOk (value_in (take (bytes_of size) (drop place self.now))) }
        ensures { value_in (take (bytes_of size) (drop place self.now)) ≡ Ok result }
    {
        match size {
            Size::Double => self.known_double(place),
            _ => Value::Number(number_at(&self.bytes, place, size)),
        }
    }

    /// Loads the number or the pointer in the 8 cells from index `place` on. The caller must know that there is one.
    #[inline(always)]
    fn known_double(&self, place: usize) -> Value
        requires inside { place + 8 ≤ 512 }
        requires known { IsOk (value_in (take 8 (drop place self.now))) }
        ensures { value_in (take 8 (drop place self.now)) ≡ Ok result }
    {
        let kind = self.kinds[place];
        if kind == BYTE {
            Value::Number(number_at(&self.bytes, place, Size::Double))
        } else {
            Value::Pointer(region_of(kind), self.offsets[place].cast_signed())
        }
    }

    /// Loads the little-endian number in the `size` cells from index `place` on. The caller must know that all of them
    /// are bytes.
    #[inline(always)]
    pub(crate) fn known_number(&self, place: usize, size: Size) -> u64
        requires inside { place + bytes_of size ≤ 512 }
        requires known { IsOk (number_in (take (bytes_of size) (drop place self.now))) }
        ensures { number_in (take (bytes_of size) (drop place self.now)) ≡ Ok result }
    {
        number_at(&self.bytes, place, size)
    }

    /// Stores the low `size` bytes of a number in the cells from index `place` on.
    #[inline(always)]
    pub(crate) fn put_number(&mut self, place: usize, size: Size, number: u64)
        requires { place + bytes_of size ≤ 512 }
        ensures { self.new ≡ overwritten self.old place (map Cell.Byte (little_bytes (bytes_of size) number)) }
    {
        put(&mut self.kinds, place, size, BYTES);
        put(&mut self.bytes, place, size, number);
    }

    /// Stores a pointer as its 8 pieces, in the cells from index `place` on.
    #[inline(always)]
    pub(crate) fn put_pointer(&mut self, place: usize, region: Region, offset: i32)
        requires { place + 8 ≤ 512 }
        ensures { self.new ≡ overwritten self.old place (pieces_of region offset) }
    {
        put(&mut self.kinds, place, Size::Double, pieces(region));
        self.offsets[place] = offset.cast_unsigned();
    }
}

/// Returns the region of a stored pointer, one of whose pieces has this kind.
fn region_of(kind: u8) -> Region
    ensures { result ≡ region_of kind }
{
    if kind < 10 {
        Region::Stack
    } else {
        Region::Context
    }
}

/// Returns the kinds of the 8 pieces of a pointer into this region, as one number.
fn pieces(region: Region) -> u64
    ensures { result ≡ pieces region }
{
    match region {
        Region::Stack => STACK_PIECES,
        Region::Context => CONTEXT_PIECES,
    }
}
