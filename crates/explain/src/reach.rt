//! Finds the memory that an instruction accesses: the base register, the distance and the number of bytes.
ghost use Rattle.std.specs.Prelude.{◌≡◌, ◌≤◌, ◌-◌, ◌+ℤ◌, pos, IfSome};
ghost use Rattle.semantics.specs.Call.{helper_of};
ghost use Rattle.explain.specs.Shortfalls.{counted, call_reach, reach_of, touched};

use crate::values::{NumberSpan, between};
use absval::{AbsVal, Offsets};
use helper::reads::numbered;
use helper::{BOARD_WORDS, Helper};
use insn::{Insn, Reg, Size, bytes_of_part};
use verify::AbsState;
use word::Narrow;

/// The memory that an instruction accesses: `size` bytes, at `distance` bytes from the address in the base register.
#[derive(Clone, Copy)]
pub(crate) struct Reach {
    pub base: Reg,
    pub distance: i16,
    pub size: usize,
}

/// Returns the memory that a call accesses from the address in r2 on: `size` for each item, for the greatest possible
/// number of items. Returns `None` if that number is not known to be at most 64.
fn counted(size: Size, count: AbsVal) -> Option<Reach>
    ensures reach { result ≡ counted size count }
    ensures few { IfSome result (λ reach. reach.size ≤ 512) }
{
    let AbsVal::Number(numbers) = count else {
        return None;
    };
    if numbers.greatest() > BOARD_WORDS {
        return None;
    }
    Some(Reach {
        base: numbered(2),
        distance: 0,
        size: size.bytes() * numbers.greatest() as usize,
    })
}

/// Returns the memory that a call of the helper with this number accesses, or `None` if it accesses none. `count` is
/// what is known of its number of items.
fn call_reach(number: i32, count: AbsVal) -> Option<Reach>
    ensures reach { result ≡ call_reach (helper_of number) count }
    ensures few { IfSome result (λ reach. reach.size ≤ 512) }
{
    match helper::helper_of(number) {
        Some(Helper::BoardCopy) => counted(Size::Double, count),
        Some(Helper::SendRow) => counted(Size::Word, count),
        _ => None,
    }
}

/// Returns the memory that an instruction accesses, at most 512 bytes, or `None` if it accesses none.
pub(crate) fn reach_of(insn: &Insn, state: &AbsState) -> Option<Reach>
    ensures reach { result ≡ reach_of insn.now state.now.registers }
    ensures few { IfSome result (λ reach. reach.size ≤ 512) }
{
    match insn {
        Insn::Load {
            size,
            base,
            offset,
            ..
        }
        | Insn::Store {
            size,
            base,
            offset,
            ..
        } => Some(Reach {
            base: *base,
            distance: *offset,
            size: size.bytes(),
        }),
        Insn::LoadSigned {
            part,
            base,
            offset,
            ..
        } => Some(Reach {
            base: *base,
            distance: *offset,
            size: bytes_of_part(*part),
        }),
        Insn::Call { helper } => call_reach(*helper, state.known(numbered(3))),
        _ => None,
    }
}

/// Returns `offset` + `distance`: the first offset that an access at this distance from a pointer touches.
fn first_touched(offset: i32, distance: i16) -> i64
    ensures { result ≡ offset +ℤ distance }
{
    i64::from(offset) + i64::from(distance)
}

/// Returns the last offset that an access of `size` bytes at `distance` from a pointer with this offset touches. If
/// `size` is 0, returns the first offset instead.
fn last_touched(offset: i32, distance: i16, size: usize) -> i64
    requires { size ≤ 512 }
    ensures { result ≡ (offset +ℤ distance) +ℤ pos (size - 1) }
{
    let first = first_touched(offset, distance);
    if size == 0 {
        return first;
    }
    first + (size - 1) as i64
}

/// Returns the first and the last offset that an access may touch through a pointer with these offsets.
pub(crate) fn touched(offsets: Offsets, reach: &Reach) -> NumberSpan
    requires { reach.now.size ≤ 512 }
    ensures { result ≡ touched offsets reach.now }
{
    let low = first_touched(offsets.low, reach.distance);
    between(low, last_touched(offsets.high, reach.distance, reach.size))
}
