//! Computes what is known of the stack after a store or a call.
ghost use Rattle.std.specs.Prelude.{◌≡◌, ◌+◌, ◌≤◌, IfSome};
ghost use Rattle.absval.specs.Windows.{window_known};
ghost use Rattle.semantics.specs.Call.{helper_of};
ghost use Rattle.verify.specs.Transfer.{number_stored, pointer_stored, written, copied};
ghost use Rattle.verify.specs.Calls.{is_certain, window_from};
ghost use Rattle.reaching.specs.Left.{stored_in_stack, copied_to_stack, behind_call};

use absmem::AbsStack;
use absval::{AbsVal, NumberSet, Offset, Offsets, Window, window_of};
use helper::{BOARD_WORDS, Helper};
use insn::Size;
use semantics::Region;

/// Records that a number of `size` bytes is stored somewhere in a window of the stack. A window of exactly `size` bytes
/// means that the address is known. Nothing changes if there is no window.
fn put_number(stack: &mut AbsStack, size: usize, window: Option<Window>)
    requires { IfSome window (λ w. w.place + w.size ≤ 512) }
    ensures { stack.new ≡ number_stored size window stack.old }
{
    let Some(Window { place, size: wide }) = window else {
        return;
    };
    if wide == size {
        stack.put_bytes(place, wide);
    } else {
        stack.spread_bytes(place, wide);
    }
}

/// Records that a pointer is stored in the first eight cells of a window of the stack. Nothing changes if there is no
/// window.
fn put_pointer(stack: &mut AbsStack, region: Region, offset: Offset, window: Option<Window>)
    requires { IfSome window (λ w. w.place + 8 ≤ 512) }
    ensures { stack.new ≡ pointer_stored region offset window stack.old }
{
    let Some(Window { place, .. }) = window else {
        return;
    };
    stack.put_pointer(place, region, offset);
}

/// Returns the window of the stack in which eight bytes lie that are stored at one of these offsets plus `distance`.
/// Returns `None` if they may lie outside the stack.
fn eight_cells(offsets: Offsets, distance: i16) -> Option<Window>
    ensures exact { result ≡ window_known Region.Stack offsets.0 offsets.1 distance 8 }
    ensures fits { IfSome result (λ w. w.place + 8 ≤ 512) }
{
    window_of(Region::Stack, offsets, distance, 8)
}

/// Records in the stack that a value of this size is stored at the address `base` plus `distance`. Nothing changes if
/// the address is not in the stack.
pub(crate) fn store(stack: &mut AbsStack, size: Size, base: AbsVal, distance: i16, value: AbsVal)
    ensures { stack.new ≡ stored_in_stack size base distance value stack.old }
{
    let AbsVal::Pointer(region, at) = base else {
        return;
    };
    let Region::Stack = region else {
        return;
    };
    match value {
        AbsVal::Unset => {}
        AbsVal::Number(_) => {
            let size = size.bytes();
            let window = window_of(Region::Stack, at, distance, size);
            put_number(stack, size, window);
        }
        AbsVal::Pointer(region, kept) => {
            let window = eight_cells(at, distance);
            put_pointer(stack, region, kept.least(), window);
        }
    }
}

/// Records that words are written to the stack: to the whole window if `certain` is set, and otherwise somewhere in it.
/// Nothing changes if there is no window.
fn write_words(stack: &mut AbsStack, certain: bool, window: Option<Window>)
    requires { IfSome window (λ w. w.place + w.size ≤ 512) }
    ensures { stack.new ≡ written certain window stack.old }
{
    let Some(Window { place, size }) = window else {
        return;
    };
    if certain {
        stack.put_bytes(place, size);
    } else {
        stack.spread_bytes(place, size);
    }
}

/// Checks whether it is known exactly which cells a copy of words sets: whether the pointer has only one possible
/// offset, and the count only one possible value.
fn is_certain(offsets: Offsets, counts: NumberSet) -> bool
    ensures { result ≡ is_certain offsets counts }
{
    offsets.is_one() && counts.is_one()
}

/// Records in the stack that words of the board are copied to the address `target`. `counts` is what is known of how
/// many words. Nothing changes if the address is not in the stack, or if there may be more words than the board has.
fn copy(stack: &mut AbsStack, target: AbsVal, counts: AbsVal)
    ensures { stack.new ≡ copied_to_stack target counts stack.old }
{
    let AbsVal::Pointer(region, at) = target else {
        return;
    };
    let Region::Stack = region else {
        return;
    };
    let AbsVal::Number(counts) = counts else {
        return;
    };
    if counts.greatest() > BOARD_WORDS {
        return;
    }
    let window = window_of(Region::Stack, at, 0, 8 * counts.greatest() as usize);
    write_words(stack, is_certain(at, counts), window);
}

/// Records what a call of a helper does to the stack: only `board_copy` writes to it. `target` is what is known of r2,
/// the address of the copy, and `counts` of r3, the number of words.
pub(crate) fn call(stack: &mut AbsStack, helper: Option<Helper>, target: AbsVal, counts: AbsVal)
    ensures { stack.new ≡ behind_call helper target counts stack.old }
{
    match helper {
        Some(Helper::BoardCopy) => copy(stack, target, counts),
        _ => {}
    }
}
