//! Conditional jumps: what it says about the compared registers that a jump is taken, or not taken.
ghost use Rattle.std.specs.Prelude.{◌≡◌, unwrap_or, is_some, if◌then◌else◌, Some, None, true, false};
ghost use Rattle.std.specs.Int.{w64, cast_unsigned};
ghost use Rattle.word.specs.Arithmetic.{taken as used};
ghost use Rattle.verify.specs.Registers.{known_at, refined_known, number_edge, register_edge};
ghost use Rattle.verify.specs.Transfer.{narrowed};

use crate::comparison::Comparison;
use crate::registers::{read, write};
use crate::state::AbsState;
use absval::{AbsVal, NumberSet};
use insn::{Operand, Reg};
use word::{Condition, Width};

/// Whether a conditional jump may be taken, and whether it may be passed.
#[derive(Clone, Copy)]
pub struct Followed {
    pub taken: bool,
    pub not_taken: bool,
}

/// Narrows two compared values to the case that the condition holds (`taken`) or does not hold. Returns what each can
/// still be, or `None` if the case is known to be impossible. Only numbers are narrowed.
#[inline(always)]
fn refine_values(
    width: Width,
    condition: Condition,
    taken: bool,
    a: AbsVal,
    b: AbsVal,
) -> Option<(AbsVal, AbsVal)>
    ensures { result ≡ refined_known width condition taken a b }
{
    let AbsVal::Number(m) = a else {
        return Some((a, b));
    };
    let AbsVal::Number(n) = b else {
        return Some((a, b));
    };
    let (m, n) = NumberSet::refine(width, condition, taken, m, n)?;
    Some((AbsVal::Number(m), AbsVal::Number(n)))
}

/// Returns the bits of an immediate number that a comparison of this width uses: the number sign-extended to 64 bits,
/// or the low 32 of these.
fn used_number(width: Width, number: i32) -> u64
    ensures { result ≡ used width (cast_unsigned w64 number) }
{
    let wide = i64::from(number).cast_unsigned();
    match width {
        Width::W64 => wide,
        Width::W32 => wide % 0x1_0000_0000,
    }
}

/// Narrows what is known of register `dst`, which a jump compares with a number, to the case that the jump is `taken`
/// or not. Returns false, and leaves the registers unchanged, if this case is known to be impossible. Otherwise returns
/// true.
#[inline(always)]
fn refine_by_number(
    registers: &mut [AbsVal; 11],
    compared: (Width, Condition),
    taken: bool,
    dst: Reg,
    first: &AbsVal,
    number: i32,
) -> bool
    requires { first.now ≡ known_at registers.old dst }
    ensures followed { result ≡ is_some
        (number_edge compared.0 compared.1 taken registers.old dst (cast_unsigned w64 number)) }
    ensures left { registers.new
        ≡ unwrap_or (number_edge compared.0 compared.1 taken registers.old dst
        (cast_unsigned w64 number)) registers.old }
{
    let second = AbsVal::Number(NumberSet::exactly(used_number(compared.0, number)));
    let Some((first, _)) = refine_values(compared.0, compared.1, taken, *first, second) else {
        return false;
    };
    write(registers, dst, first);
    true
}

/// Narrows what is known of registers `dst` and `src`, which a jump compares, to the case that the jump is `taken` or
/// not. Returns false, and leaves the registers unchanged, if this case is known to be impossible. Otherwise returns
/// true. If a register is compared with itself, nothing is learned, and the result is true.
#[inline(always)]
fn refine_registers(
    registers: &mut [AbsVal; 11],
    compared: (Width, Condition),
    taken: bool,
    dst: Reg,
    first: &AbsVal,
    src: Reg,
) -> bool
    requires { first.now ≡ known_at registers.old dst }
    ensures followed { result ≡ is_some (register_edge compared.0 compared.1 taken registers.old dst src) }
    ensures left { registers.new
        ≡ unwrap_or (register_edge compared.0 compared.1 taken registers.old dst src) registers.old }
{
    if dst.number() == src.number() {
        return true;
    }
    let second = read(registers, src);
    let Some((first, second)) = refine_values(compared.0, compared.1, taken, *first, second) else {
        return false;
    };
    write(registers, dst, first);
    write(registers, src, second);
    true
}

/// Narrows two copies of one abstract state at a conditional jump: `state` to the case that the jump is taken, and
/// `other` to the case that it is not. Returns for each case whether it may happen: false means that it cannot.
pub fn refine(state: &mut AbsState, other: &mut AbsState, compared: &Comparison) -> Followed
    requires { other.old ≡ state.old }
    ensures taken { (if result.taken then Some state.new else None) ≡ narrowed compared.now true state.old }
    ensures not_taken { (if result.not_taken then Some other.new else None) ≡ narrowed compared.now false state.old }
{
    let how = (compared.width, compared.condition);
    let dst = compared.dst;
    let first = read(&state.registers, dst);
    match compared.operand {
        Operand::Register(src) => Followed {
            taken: refine_registers(&mut state.registers, how, true, dst, &first, src),
            not_taken: refine_registers(&mut other.registers, how, false, dst, &first, src),
        },
        Operand::Immediate(number) => Followed {
            taken: refine_by_number(&mut state.registers, how, true, dst, &first, number),
            not_taken: refine_by_number(&mut other.registers, how, false, dst, &first, number),
        },
    }
}
