//! Loads: computes what is known of the loaded value, for a load that may run.
ghost use Rattle.std.specs.Prelude.{◌≡◌, ◌+◌, ◌≤◌, IfSome};
ghost use Rattle.std.specs.Result.{result_ok};
ghost use Rattle.semantics.specs.declared.value.Region.{Region};
ghost use Rattle.semantics.specs.Memory.{room_of};
ghost use Rattle.absval.specs.Table.{loaded_known};
ghost use Rattle.verify.specs.Reasons.{unless};
ghost use Rattle.verify.specs.MemoryTable.{all_bytes, unset_in, spilled, stack_given, load_from, load_given, signed_from, signed_load_given};

use absmem::AbsStack;
use absval::{AbsVal, NumberSet, Offsets, Window, loaded, window_of};
use insn::{Size, bytes_of_part};
use semantics::Region;
use word::Narrow;

/// Checks whether each cell of a window of the stack is known to contain a byte of a number. The window has the cells
/// that an access may touch.
fn has_all(stack: &AbsStack, window: Window) -> bool
    requires { window.place + window.size ≤ 512 }
    ensures { result ≡ all_bytes stack.now.bytes window.place window.size }
{
    stack.has_bytes(window.place, window.size)
}

/// Returns the pointer that a load finds in the stack. Returns `None` unless the load has eight bytes, its address is
/// known exactly, and a whole pointer is known to be stored there.
fn stored_pointer(stack: &AbsStack, size: Size, window: Window) -> Option<AbsVal>
    requires { window.place + window.size ≤ 512 }
    ensures { result ≡ spilled stack.now size window }
{
    let Size::Double = size else {
        return None;
    };
    if window.size != 8 {
        return None;
    }
    let (region, offset) = stack.pointer_at(window.place)?;
    Some(AbsVal::Pointer(region, Offsets::exactly(offset)))
}

/// Returns what is known of a number that is loaded from somewhere in a window of the stack. Returns `None` if a cell
/// of the window may contain something other than a byte.
fn number_given(stack: &AbsStack, size: Size, window: Window) -> Option<AbsVal>
    requires { window.place + window.size ≤ 512 }
    ensures { result ≡ result_ok (unless (unset_in stack.now Region.Stack window) (loaded_known size)) }
{
    if !has_all(stack, window) {
        return None;
    }
    Some(loaded(size))
}

/// Returns what is known of a value that is loaded from somewhere in a window of the stack: a pointer or a number.
/// Returns `None` if the load may not run.
fn stack_given(stack: &AbsStack, size: Size, window: Window) -> Option<AbsVal>
    requires { window.place + window.size ≤ 512 }
    ensures { result ≡ result_ok (stack_given stack.now size window) }
{
    if let Some(pointer) = stored_pointer(stack, size, window) {
        return Some(pointer);
    }
    number_given(stack, size, window)
}

/// Returns what is known of a value that is loaded from somewhere in a window of the stack or the context. Returns
/// `None` if there is no window, or if the load may not run.
fn load_from(stack: &AbsStack, size: Size, region: Region, window: Option<Window>) -> Option<AbsVal>
    requires { IfSome window (λ w. w.place + w.size ≤ room_of region) }
    ensures { result ≡ result_ok (load_from stack.now size region window) }
{
    let window = window?;
    match region {
        Region::Context => Some(loaded(size)),
        Region::Stack => stack_given(stack, size, window),
    }
}

/// Returns what is known of a value that is loaded from the address `base` plus `distance`. Returns `None` if the load
/// may not run.
pub(crate) fn load(stack: &AbsStack, size: Size, base: AbsVal, distance: i16) -> Option<AbsVal>
    ensures { result ≡ result_ok (load_given stack.now size base distance) }
{
    let AbsVal::Pointer(region, at) = base else {
        return None;
    };
    load_from(
        stack,
        size,
        region,
        window_of(region, at, distance, size.bytes()),
    )
}

/// Returns what is known of a value that is loaded from somewhere in a window and sign-extended: it may be any number.
/// Returns `None` if there is no window, or if the load may not run.
fn signed_from(stack: &AbsStack, region: Region, window: Option<Window>) -> Option<AbsVal>
    requires { IfSome window (λ w. w.place + w.size ≤ room_of region) }
    ensures { result ≡ result_ok (signed_from stack.now region window) }
{
    let window = window?;
    match region {
        Region::Context => Some(AbsVal::Number(NumberSet::any())),
        Region::Stack if has_all(stack, window) => Some(AbsVal::Number(NumberSet::any())),
        Region::Stack => None,
    }
}

/// Returns what is known of a value that is loaded from the address `base` plus `distance` and sign-extended. Returns
/// `None` if the load may not run.
pub(crate) fn load_signed(
    stack: &AbsStack,
    part: Narrow,
    base: AbsVal,
    distance: i16,
) -> Option<AbsVal>
    ensures { result ≡ result_ok (signed_load_given stack.now part base distance) }
{
    let AbsVal::Pointer(region, at) = base else {
        return None;
    };
    signed_from(
        stack,
        region,
        window_of(region, at, distance, bytes_of_part(part)),
    )
}
