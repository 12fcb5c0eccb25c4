//! Loads and stores several numbers at a pointer, for the helpers `send_row` and `board_copy`.
ghost use Rattle.std.specs.Prelude.{◌≡◌, ◌+◌, ◌-◌, ◌*◌, ◌≤◌, take, drop, replicate, length, Ok, Err, IfOk, IfErr};
ghost use Rattle.semantics.specs.Memory.{with_words, room_of};
ghost use Rattle.mem.specs.Answers.{IsAnswer, cause_of};
ghost use Rattle.mem.specs.Places.{part_at};
ghost use Rattle.mem.specs.Reading.{number_in};
ghost use Rattle.mem.specs.Rows.{row_at};

use crate::context::Context;
use crate::fault::MemoryFault;
use crate::stack::Stack;
use crate::window::{part_at, stack_part};
use insn::Size;
use semantics::{Region, Value};

/// Loads `count` numbers of 4 bytes each at the pointer `base`. Returns them with zeros after them.
///
/// # Errors
///
/// A `MemoryFault` if `base` is not a pointer, the numbers are not all in its region, or a stack cell among them is not
/// a byte.
pub fn load_row(
    stack: &Stack,
    context: &Context,
    base: Value,
    count: usize,
) -> Result<[u32; 13], MemoryFault>
    requires { count ≤ 13 }
    ensures row { IfOk result (λ row. row_at context.now stack.now base count ≡ Ok (take count row)) }
    ensures rest { IfOk result (λ row. drop count row ≡ replicate (13 - count) 0) }
    ensures refused { IfErr result (λ f. row_at context.now stack.now base count ≡ Err (cause_of f)) }
{
    stack.recall();
    let _bytes = context.bytes();
    let (region, place) = part_at(base, 0, 4 * count)?;
    let mut row = [0; 13];
    for i in 0..count {
        row[i] = word_in(stack, context, region, place + 4 * i)?;
    }
    Ok(row)
}

/// Loads the number in the 4 bytes of `region` from index `place` on. Fails with `NoBytes` if a stack cell there is not
/// a byte.
fn word_in(
    stack: &Stack,
    context: &Context,
    region: Region,
    place: usize,
) -> Result<u32, MemoryFault>
    requires { place + 4 ≤ room_of region }
    ensures { IsAnswer (number_in (part_at context.now stack.now 4 (region, place))) result }
{
    match region {
        Region::Stack => stack.word(place),
        Region::Context => Ok(context.word(place)),
    }
}

/// Stores `words`, 8 bytes each, at the pointer `base`. Stores nothing if `base` is not a pointer into the stack, or if
/// the words do not fit into the stack there.
pub fn store_words(stack: &mut Stack, base: Value, words: &[u64])
    requires { length words.now ≤ 64 }
    ensures { stack.new ≡ with_words stack.old base words.now }
{
    stack.recall();
    let Ok(place) = stack_part(base, 0, 8 * words.len()) else {
        return;
    };
    for i in 0..words.len() {
        stack.put_number(place + 8 * i, Size::Double, words[i]);
    }
}
