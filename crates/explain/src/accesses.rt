//! Finds what is wrong with a rejected memory access: it may leave its region, reads stack cells that may be unset, or
//! writes the context.
ghost use Rattle.std.specs.Prelude.{◌≡◌, ◌≤◌, ◌+◌, ◌-◌, IfSome};
ghost use Rattle.explain.specs.Shortfalls.{outside, first_empty, empty_in, empty_cell, context_written, reached};

use crate::reach::{Reach, touched};
use crate::sentence::{AccessMisuse, Sentence};
use absmem::AbsStack;
use absval::{AbsVal, Window, window_of};
use semantics::Region;

/// Returns the sentence that says that an access may touch bytes outside its region. It is not checked that it may.
/// `value` is what is known of the base register. Returns `None` if it is not a pointer.
pub(crate) fn outside(reach: Reach, value: AbsVal) -> Option<Sentence>
    requires { reach.size ≤ 512 }
    ensures { result ≡ outside reach value }
{
    let AbsVal::Pointer(region, offsets) = value else {
        return None;
    };
    let span = touched(offsets, &reach);
    Some(Sentence::Memory(AccessMisuse::Outside(reach.base, region, span)))
}

/// Returns the first of the `size` stack cells from cell `place` on that may hold no byte, or `None` if all hold bytes.
fn first_empty(stack: &AbsStack, place: usize, size: usize) -> Option<usize>
    requires { place + size ≤ 512 }
    ensures empty { result ≡ first_empty stack.now.bytes place size }
    ensures few { IfSome result (λ k. k ≤ 512) }
{
    if size == 0 {
        return None;
    }
    if !stack.has_bytes(place, 1) {
        return Some(place);
    }
    first_empty(stack, place + 1, size - 1)
}

/// Returns the first stack cell of a window that may hold no byte, or `None` if there is no window or all its cells
/// hold bytes.
fn empty_in(stack: &AbsStack, window: Option<Window>) -> Option<usize>
    requires { IfSome window (λ w. w.place + w.size ≤ 512) }
    ensures empty { result ≡ empty_in stack.now window }
    ensures few { IfSome result (λ k. k ≤ 512) }
{
    let Window { place, size } = window?;
    first_empty(stack, place, size)
}

/// Returns the sentence that says that an access reads a stack cell that may hold no byte. Returns `None` if `value`,
/// which is what is known of the base register, is not a pointer into the stack, or if all cells that may be read hold
/// bytes.
pub(crate) fn empty_cell(stack: &AbsStack, reach: Reach, value: AbsVal) -> Option<Sentence>
    requires { reach.size ≤ 512 }
    ensures { result ≡ empty_cell stack.now reach value }
{
    let AbsVal::Pointer(region, offsets) = value else {
        return None;
    };
    let Region::Stack = region else {
        return None;
    };
    let window = window_of(Region::Stack, offsets, reach.distance, reach.size);
    let cell = empty_in(stack, window)?;
    let span = touched(offsets, &reach);
    Some(Sentence::Memory(AccessMisuse::Empty(reach.base, span, cell as u16)))
}

/// Returns the sentence that says that an access stores to the context, which is read-only. `value` is what is known of
/// the base register. The result is never `None`.
pub(crate) fn context_written(reach: Reach, value: AbsVal) -> Option<Sentence>
    ensures { result ≡ context_written reach value }
{
    Some(Sentence::Memory(AccessMisuse::Context(reach.base, value)))
}
