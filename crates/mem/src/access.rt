//! Loads and stores in the stack and the context. `load` and `store` check each access. `read` and `write_number`
//! require that it succeeds, as the verifier has proved.
ghost use Rattle.std.specs.Prelude.{◌≡◌, ◌+◌, ◌≤◌, Ok, Err, OnOk, IfErr, IsOk};
ghost use Rattle.insn.specs.Insn.{bytes_of, part_bytes};
ghost use Rattle.semantics.specs.Memory.{loaded, loaded_signed, stored, value_in, room_of};
ghost use Rattle.mem.specs.Answers.{IsAnswer, cause_of};
ghost use Rattle.mem.specs.Places.{part_at};
ghost use Rattle.mem.specs.Reading.{number_in};

use crate::context::Context;
use crate::fault::MemoryFault;
use crate::stack::Stack;
use crate::window::{known_place, place_at, stack_place};
use insn::Size;
use semantics::{Region, Value};
use word::arithmetic::sign_extend;
use word::{Narrow, Width};

/// Loads `size` bytes at the pointer `base` plus `distance` as an unsigned number (RFC 9669, section 5.1). Returns a
/// pointer instead if these bytes of the stack are the 8 pieces, in order, of a stored one.
///
/// # Errors
///
/// A `MemoryFault` if `base` is not a pointer, the bytes are not all in its region, or the stack has neither a number
/// nor a whole pointer there.
pub fn load(
    stack: &Stack,
    context: &Context,
    size: Size,
    base: Value,
    distance: i16,
) -> Result<Value, MemoryFault>
    ensures { IsAnswer (loaded context.now stack.now (bytes_of size) base distance) result }
{
    let (region, place) = place_at(base, distance, size)?;
    value_in(stack, context, region, place, size)
}

/// Loads 1, 2 or 4 bytes at the pointer `base` plus `distance` as a signed number, extended to 64 bits (RFC 9669,
/// section 5.2).
///
/// # Errors
///
/// A `MemoryFault` if `base` is not a pointer, the bytes are not all in its region, or a stack cell among them is not a
/// byte.
pub fn load_signed(
    stack: &Stack,
    context: &Context,
    part: Narrow,
    base: Value,
    distance: i16,
) -> Result<Value, MemoryFault>
    ensures { IsAnswer (loaded_signed context.now stack.now part base distance) result }
{
    let size = size_of(part);
    let (region, place) = place_at(base, distance, size)?;
    let number = number_in(stack, context, region, place, size)?;
    Ok(Value::Number(sign_extend(Width::W64, part, number)))
}

/// Loads the number or the pointer in the `size` bytes of `region` from index `place` on. Fails with `NoBytes` if there
/// is neither.
fn value_in(
    stack: &Stack,
    context: &Context,
    region: Region,
    place: usize,
    size: Size,
) -> Result<Value, MemoryFault>
    requires { place + bytes_of size ≤ room_of region }
    ensures { IsAnswer (value_in (part_at context.now stack.now (bytes_of size) (region, place))) result }
{
    match region {
        Region::Stack => stack.value(place, size),
        Region::Context => Ok(Value::Number(context.number(place, size))),
    }
}

/// Loads the number in the `size` bytes of `region` from index `place` on. Fails with `NoBytes` if a stack cell there
/// is not a byte.
fn number_in(
    stack: &Stack,
    context: &Context,
    region: Region,
    place: usize,
    size: Size,
) -> Result<u64, MemoryFault>
    requires { place + bytes_of size ≤ room_of region }
    ensures { IsAnswer (number_in (part_at context.now stack.now (bytes_of size) (region, place))) result }
{
    match region {
        Region::Stack => stack.number(place, size),
        Region::Context => Ok(context.number(place, size)),
    }
}

/// Returns the size of a sign-extended load of `part`: 1, 2 or 4 bytes.
fn size_of(part: Narrow) -> Size
    ensures { bytes_of result ≡ part_bytes part }
{
    match part {
        Narrow::Byte => Size::Byte,
        Narrow::Half => Size::Half,
        Narrow::Word => Size::Word,
    }
}

/// Stores the low `size` bytes of a number, or a whole pointer, at the pointer `base` plus `distance` (RFC 9669,
/// section 5.1).
///
/// # Errors
///
/// A `MemoryFault` in these cases, in which the stack stays as it is:
///
/// - `base` is not a pointer into the stack.
/// - The bytes are not all in the stack.
/// - `value` is unset.
/// - `value` is a pointer, and `size` is not 8 bytes.
pub fn store(
    stack: &mut Stack,
    size: Size,
    base: Value,
    distance: i16,
    value: Value,
) -> Result<(), MemoryFault>
    ensures stored { OnOk result (stored stack.old (bytes_of size) base distance value ≡ Ok stack.new) }
    ensures refused { IfErr result (λ f. stored stack.old (bytes_of size) base distance value ≡ Err (cause_of f)) }
    ensures kept { IfErr result (λ _. stack.new ≡ stack.old) }
{
    let place = stack_place(base, distance, size)?;
    match value {
        Value::Unset => Err(MemoryFault::UnsetRegister),
        Value::Number(number) => {
            stack.put_number(place, size, number);
            Ok(())
        }
        Value::Pointer(region, offset) => match size {
            Size::Double => {
                stack.put_pointer(place, region, offset);
                Ok(())
            }
            _ => Err(MemoryFault::PointerUse),
        },
    }
}

/// Returns what [`load`] loads at a pointer with this region and offset. The caller must know that the load succeeds.
#[inline(always)]
pub fn read(
    stack: &Stack,
    context: &Context,
    size: Size,
    region: Region,
    offset: i64,
    distance: i16,
) -> Value
    requires { IsOk (loaded context.now stack.now (bytes_of size) (Value.Pointer region offset) distance) }
    ensures { loaded context.now stack.now (bytes_of size) (Value.Pointer region offset) distance ≡ Ok result }
{
    let place = known_place(region, offset, distance, size);
    match region {
        Region::Stack => stack.known_value(place, size),
        Region::Context => Value::Number(context.number(place, size)),
    }
}

/// Returns the number that [`load_signed`] loads at a pointer with this region and offset. The caller must know that
/// the load succeeds.
#[inline(always)]
pub fn read_signed(
    stack: &Stack,
    context: &Context,
    part: Narrow,
    region: Region,
    offset: i64,
    distance: i16,
) -> u64
    requires { IsOk (loaded_signed context.now stack.now part (Value.Pointer region offset) distance) }
    ensures { loaded_signed context.now stack.now part (Value.Pointer region offset) distance
        ≡ Ok (Value.Number result) }
{
    let size = size_of(part);
    let place = known_place(region, offset, distance, size);
    let number = match region {
        Region::Stack => stack.known_number(place, size),
        Region::Context => context.number(place, size),
    };
    sign_extend(Width::W64, part, number)
}

/// Stores a number as [`store`] does, at `distance` from the pointer into the stack with offset `offset`. The caller
/// must know that the store succeeds.
#[inline(always)]
pub fn write_number(stack: &mut Stack, size: Size, offset: i64, distance: i16, number: u64)
    requires { IsOk (stored stack.old (bytes_of size) (Value.Pointer Region.Stack offset) distance
        (Value.Number number)) }
    ensures { stored stack.old (bytes_of size) (Value.Pointer Region.Stack offset) distance (Value.Number number)
        ≡ Ok stack.new }
{
    let place = known_place(Region::Stack, offset, distance, size);
    stack.put_number(place, size, number);
}

/// Stores a pointer, into `region` with offset `at`, as [`store`] does, at `distance` from the pointer into the stack
/// with offset `offset`. The caller must know that the store succeeds.
#[inline(always)]
pub fn write_pointer(stack: &mut Stack, offset: i64, distance: i16, region: Region, at: i32)
    requires { IsOk (stored stack.old 8 (Value.Pointer Region.Stack offset) distance (Value.Pointer region at)) }
    ensures { stored stack.old 8 (Value.Pointer Region.Stack offset) distance (Value.Pointer region at) ≡ Ok stack.new }
{
    let place = known_place(Region::Stack, offset, distance, Size::Double);
    stack.put_pointer(place, region, at);
}
