//! Computes the window of an access, the bytes of its region that it touches, and checks that they are all in the
//! region.
ghost use Rattle.std.specs.Prelude.{◌≡◌, ◌+◌, ◌+ℤ◌, ◌≤◌, IfOk, IsOk, Ok};
ghost use Rattle.insn.specs.Insn.{bytes_of};
ghost use Rattle.semantics.specs.Memory.{inside, window, stack_place, room_of};
ghost use Rattle.mem.specs.Answers.{IsAnswer};
ghost use Rattle.mem.specs.Places.{place_at};

use crate::context::Context;
use crate::fault::MemoryFault;
use crate::stack::Stack;
use insn::Size;
use semantics::{Region, Value};

/// Returns `place`, the index of a window's first byte, if all of its `size` bytes are in a region of `room` bytes.
/// Fails with `OutOfBounds` otherwise.
fn inside(room: usize, size: usize, place: i64) -> Result<usize, MemoryFault>
    requires { size ≤ 512 }
    ensures answer { IsAnswer (inside room size place) result }
    ensures fits { IfOk result (λ p. p + size ≤ room) }
{
    if place < 0 {
        return Err(MemoryFault::OutOfBounds);
    }
    let place = place as usize;
    if place + size <= room {
        Ok(place)
    } else {
        Err(MemoryFault::OutOfBounds)
    }
}

/// Returns the index in the region of the first of `size` bytes at `offset` + `distance`. Fails with `OutOfBounds` if
/// not all of them are in the region.
fn window(region: Region, offset: i32, distance: i16, size: usize) -> Result<usize, MemoryFault>
    requires { size ≤ 512 }
    ensures answer { IsAnswer (window region (offset +ℤ distance) size) result }
    ensures fits { IfOk result (λ p. p + size ≤ room_of region) }
{
    let offset = i64::from(offset) + i64::from(distance);
    match region {
        Region::Stack => inside(Stack::CELLS, size, offset + Stack::CELLS as i64),
        Region::Context => inside(Context::BYTES, size, offset),
    }
}

/// Returns the region of the pointer `base`, and the index in it of the first of `size` bytes at `base` plus
/// `distance`.
///
/// # Errors
///
/// A `MemoryFault` if `base` is not a pointer, or if not all of these bytes are in its region.
pub fn part_at(base: Value, distance: i16, size: usize) -> Result<(Region, usize), MemoryFault>
    requires { size ≤ 512 }
    ensures answer { IsAnswer (place_at base distance size) result }
    ensures fits { IfOk result (λ p. p.1 + size ≤ room_of p.0) }
{
    match base {
        Value::Unset => Err(MemoryFault::UnsetRegister),
        Value::Number(_) => Err(MemoryFault::PointerUse),
        Value::Pointer(region, offset) => {
            let place = window(region, offset, distance, size)?;
            Ok((region, place))
        }
    }
}

/// Returns the region of the pointer `base`, and the index in it of the first byte of an access at `base` plus
/// `distance`.
///
/// # Errors
///
/// A `MemoryFault` if `base` is not a pointer, or if not all bytes of the access are in its region.
pub fn place_at(base: Value, distance: i16, size: Size) -> Result<(Region, usize), MemoryFault>
    ensures answer { IsAnswer (place_at base distance (bytes_of size)) result }
    ensures fits { IfOk result (λ p. p.1 + bytes_of size ≤ room_of p.0) }
{
    part_at(base, distance, size.bytes())
}

/// Returns the index in the stack of the first of `size` bytes that are stored at `base` plus `distance`.
///
/// # Errors
///
/// A `MemoryFault` if `base` is not a pointer into the stack, or if not all of these bytes are in the stack.
pub fn stack_part(base: Value, distance: i16, size: usize) -> Result<usize, MemoryFault>
    requires { size ≤ 512 }
    ensures answer { IsAnswer (stack_place base distance size) result }
    ensures fits { IfOk result (λ p. p + size ≤ 512) }
{
    match base {
        Value::Unset => Err(MemoryFault::UnsetRegister),
        Value::Number(_) => Err(MemoryFault::PointerUse),
        Value::Pointer(Region::Stack, offset) => window(Region::Stack, offset, distance, size),
        Value::Pointer(Region::Context, _) => Err(MemoryFault::ContextWrite),
    }
}

/// Returns the index in the stack of the first byte of a store at `base` plus `distance`.
///
/// # Errors
///
/// A `MemoryFault` if `base` is not a pointer into the stack, or if not all bytes of the store are in the stack.
pub fn stack_place(base: Value, distance: i16, size: Size) -> Result<usize, MemoryFault>
    ensures answer { IsAnswer (stack_place base distance (bytes_of size)) result }
    ensures fits { IfOk result (λ p. p + bytes_of size ≤ 512) }
{
    stack_part(base, distance, size.bytes())
}

/// Returns `place`, the index of an access's first byte in a region of `room` bytes. The caller must know that all
/// bytes of the access are in the region.
#[inline(always)]
fn known_inside(room: usize, size: Size, place: i64) -> usize
    requires { IsOk (inside room (bytes_of size) place) }
    ensures place { inside room (bytes_of size) place ≡ Ok result }
    ensures fits { result + bytes_of size ≤ room }
{
    let _ = room;
    let _ = size;
    place as usize
}

/// Returns the index in the region of the first byte of an access at `offset` + `distance`. The caller must know that
/// all bytes of the access are in the region.
#[inline(always)]
pub fn known_place(region: Region, offset: i64, distance: i16, size: Size) -> usize
    requires { IsOk (window region (offset +ℤ distance) (bytes_of size)) }
    ensures place { window region (offset +ℤ distance) (bytes_of size) ≡ Ok result }
    ensures fits { result + bytes_of size ≤ room_of region }
{
    let offset = offset + i64::from(distance);
    match region {
        Region::Stack => known_inside(Stack::CELLS, size, offset + Stack::CELLS as i64),
        Region::Context => known_inside(Context::BYTES, size, offset),
    }
}
