//! Loads and stores: checks them, and changes the abstract state as they do.
ghost use Rattle.std.specs.Prelude.{◌≡◌, ◌+◌, ◌≤◌, Some, IfOk};
ghost use Rattle.std.specs.Option.{ok_or};
ghost use Rattle.std.specs.Result.{result_err};
ghost use Rattle.insn.specs.Insn.{bytes_of};
ghost use Rattle.semantics.specs.Memory.{room_of};
ghost use Rattle.absval.specs.Windows.{window_known};
ghost use Rattle.verify.specs.Reasons.{unless, outcome};
ghost use Rattle.verify.specs.MemoryTable.{pointer_in, unset_in, spilled, stack_given, load_from, signed_load_given, write_refused, pointer_refused, store_refused};
ghost use Rattle.verify.specs.Transfer.{number_stored, pointer_stored, stored};

use crate::reason::Reason;
use absmem::AbsStack;
use absval::{AbsVal, NumberSet, Offsets, Window, loaded, window_of};
use insn::{Size, bytes_of_part};
use semantics::Region;
use word::Narrow;

/// Returns the region and the offsets of a base register's value. Fails with `PointerUse` if it is not a pointer.
pub(crate) fn pointer_of(base: &AbsVal) -> Result<(Region, Offsets), Reason>
    ensures { result ≡ pointer_in base.now }
{
    match base {
        AbsVal::Pointer(region, offsets) => Ok((*region, *offsets)),
        AbsVal::Unset | AbsVal::Number(_) => Err(Reason::PointerUse),
    }
}

/// Returns the window of an access of `size` bytes at `distance` from a pointer with these offsets: the cells that it
/// may touch. Fails with `Bounds` if the access may leave the region.
fn window(region: Region, offsets: Offsets, distance: i16, size: usize) -> Result<Window, Reason>
    requires { size ≤ 8 }
    ensures exact { result ≡ ok_or (window_known region offsets.0 offsets.1 distance size) Reason.Bounds }
    ensures fits { IfOk result (λ w. w.place + w.size ≤ room_of region) }
    ensures single { IfOk result (λ w. offsets.0 ≡ offsets.1 → w.size ≡ size) }
{
    let Some(window) = window_of(region, offsets, distance, size) else {
        return Err(Reason::Bounds);
    };
    Ok(window)
}

/// Returns the pointer that a load finds on the stack, if it loads 8 bytes from one address where a pointer is known to
/// be stored. Otherwise returns `None`.
fn stored_pointer(stack: &AbsStack, size: Size, window: Window) -> Option<AbsVal>
    requires { window.place + window.size ≤ 512 }
    ensures { result ≡ spilled stack.now size window }
{
    let Size::Double = size else {
        return None;
    };
    if window.size != 8 {
        return None;
    }
    let (region, offset) = stack.pointer_at(window.place)?;
    Some(AbsVal::Pointer(region, Offsets::exactly(offset)))
}

/// Writes the result of a load from a window of the stack to a register: a stored pointer, or any number of the load's
/// size. Fails with `StackUnset` if one of the cells may not be a byte.
fn load_stack(
    register: &mut AbsVal,
    stack: &AbsStack,
    size: Size,
    window: Window,
) -> Result<(), Reason>
    requires { window.place + window.size ≤ 512 }
    ensures { outcome result register.new ≡ stack_given stack.now size window }
{
    if let Some(pointer) = stored_pointer(stack, size, window) {
        *register = pointer;
        return Ok(());
    }
    if !stack.has_bytes(window.place, window.size) {
        return Err(Reason::StackUnset);
    }
    *register = loaded(size);
    Ok(())
}

/// Writes the result of a load to a register, for a base with this region and these offsets. Fails with `Bounds` or
/// `StackUnset`. Each region has its own write, so that the compiled code does not join values from several branches.
pub fn load_into(
    register: &mut AbsVal,
    stack: &AbsStack,
    size: Size,
    region: Region,
    offsets: Offsets,
    distance: i16,
) -> Result<(), Reason>
    ensures { outcome result register.new
        ≡ load_from stack.now size region (window_known region offsets.0 offsets.1 distance (bytes_of size)) }
{
    match region {
        Region::Context => {
            window(Region::Context, offsets, distance, size.bytes())?;
            *register = loaded(size);
            Ok(())
        }
        Region::Stack => {
            let cells = window(Region::Stack, offsets, distance, size.bytes())?;
            load_stack(register, stack, size, cells)
        }
    }
}

/// Checks that all cells of a window hold bytes. Fails with `StackUnset`. The cells of the context always hold bytes.
pub(crate) fn check_bytes(stack: &AbsStack, region: Region, window: Window) -> Result<(), Reason>
    requires { window.place + window.size ≤ room_of region }
    ensures { result_err result ≡ unset_in stack.now region window }
{
    match region {
        Region::Context => Ok(()),
        Region::Stack => {
            if !stack.has_bytes(window.place, window.size) {
                return Err(Reason::StackUnset);
            }
            Ok(())
        }
    }
}

/// Returns what is known of the result of a sign-extended load: it may be any number. Fails with `PointerUse`, `Bounds`
/// or `StackUnset`.
pub fn load_signed(
    stack: &AbsStack,
    part: Narrow,
    base: AbsVal,
    distance: i16,
) -> Result<AbsVal, Reason>
    ensures { result ≡ signed_load_given stack.now part base distance }
{
    let (region, offsets) = pointer_of(&base)?;
    let window = window(region, offsets, distance, bytes_of_part(part))?;
    check_bytes(stack, region, window)?;
    Ok(AbsVal::Number(NumberSet::any()))
}

/// Returns the stack cells that a store may touch. Fails with `ContextWrite` if the base points into the context, and
/// with `Bounds` if the store may leave the stack.
fn stack_window(
    region: Region,
    offsets: Offsets,
    distance: i16,
    size: usize,
) -> Result<Window, Reason>
    requires { size ≤ 8 }
    ensures refused { result_err result ≡ write_refused region (window_known region offsets.0 offsets.1 distance size) }
    ensures there { IfOk result (λ w. window_known region offsets.0 offsets.1 distance size ≡ Some w) }
    ensures fits { IfOk result (λ w. w.place + w.size ≤ 512) }
    ensures single { IfOk result (λ w. offsets.0 ≡ offsets.1 → w.size ≡ size) }
{
    match region {
        Region::Context => Err(Reason::ContextWrite),
        Region::Stack => window(Region::Stack, offsets, distance, size),
    }
}

/// Records a store of a number of `size` bytes. Fails with `ContextWrite` or `Bounds`.
#[inline(always)]
pub(crate) fn store_number(
    stack: &mut AbsStack,
    size: Size,
    base: (Region, Offsets),
    distance: i16,
) -> Result<(), Reason>
    ensures { let at = window_known base.0 base.1.0 base.1.1 distance (bytes_of size) in
        outcome result stack.new ≡ unless (write_refused base.0 at) (number_stored (bytes_of size) at stack.old) }
{
    let window = stack_window(base.0, base.1, distance, size.bytes())?;
    if window.size == size.bytes() {
        stack.put_bytes(window.place, window.size);
    } else {
        stack.spread_bytes(window.place, window.size);
    }
    Ok(())
}

/// Records a store of a pointer on the stack. Fails with `PointerUse` unless it is a store of 8 bytes to one address,
/// and the pointer has one offset. Fails also with `ContextWrite` or `Bounds`.
fn store_pointer(
    stack: &mut AbsStack,
    size: Size,
    base: (Region, Offsets),
    distance: i16,
    pointer: (Region, Offsets),
) -> Result<(), Reason>
    ensures { let at = window_known base.0 base.1.0 base.1.1 distance 8 in
        outcome result stack.new
        ≡ unless (pointer_refused size base.0 base.1 distance pointer.1)
        (pointer_stored pointer.0 pointer.1.0 at stack.old) }
{
    let Size::Double = size else {
        return Err(Reason::PointerUse);
    };
    if !base.1.is_one() || !pointer.1.is_one() {
        return Err(Reason::PointerUse);
    }
    let window = stack_window(base.0, base.1, distance, 8)?;
    stack.put_pointer(window.place, pointer.0, pointer.1.least());
    Ok(())
}

/// Checks a store, and records what it does to the stack. `base` is what is known of the base register, and `value` of
/// the value to store. Fails with the reason for which the store is rejected.
pub fn store(
    stack: &mut AbsStack,
    size: Size,
    base: &AbsVal,
    distance: i16,
    value: &AbsVal,
) -> Result<(), Reason>
    ensures { outcome result stack.new
        ≡ unless (store_refused size base.now distance value.now) (stored size base.now distance value.now stack.old) }
{
    let base = pointer_of(base)?;
    match value {
        AbsVal::Unset => Err(Reason::Unset),
        AbsVal::Number(_) => store_number(stack, size, base, distance),
        AbsVal::Pointer(region, offsets) => {
            store_pointer(stack, size, base, distance, (*region, *offsets))
        }
    }
}
