//! Finds the verifier's rule by which it knows little of an instruction's result, or learns nothing from a test.
ghost use Rattle.std.specs.Prelude.{◌≡◌, ◌^◌, ◌-◌, ◌++◌, string_bytes, OnOk};
ghost use Rattle.word.specs.Arithmetic.{bits_of};
ghost use Rattle.explain.specs.Rules.{may_wrap, is_all, number_rule, unset_rule, rule_text, is_signed, limit_bits, is_past, is_operand, passed_by, tested_text, passing_text};

use crate::refusal_text::{put_between, put_counted};
use absval::{AbsVal, NumberSet};
use insn::{Insn, Operand, Reg};
use range::Range;
use std::alloc::AllocError;
use word::{Condition, Operation, Width};

/// Checks whether the operation is one whose result may be too large for its width, and then wraps around.
fn may_wrap(operation: Operation) -> bool
    ensures { result ≡ may_wrap operation }
{
    match operation {
        Operation::Add | Operation::Sub | Operation::Mul | Operation::ShiftLeft => true,
        _ => false,
    }
}

/// Checks whether the range contains every number of the width.
fn is_all(width: Width, range: Range) -> bool
    ensures { result ≡ is_all (bits_of width) range }
{
    range.lo == 0 && range.hi == limit(width, false)
}

/// Returns the rule by which little is known of an instruction's result, which is a number, or an empty text if there
/// is no such rule. `numbers` is what is known of it.
fn number_rule(insn: &Insn, numbers: NumberSet) -> &'static str
    ensures { result.now ≡ number_rule insn.now numbers }
{
    match insn {
        Insn::Arithmetic {
            operation: Operation::ArithmeticShiftRight,
            ..
        } => ": the sign is copied, so numbers on both sides of 2^63 may give any number",
        Insn::Arithmetic {
            width,
            operation,
            ..
        } if may_wrap(*operation) && is_all(*width, numbers.range()) => {
            ": a result that may wrap around is any number of its width"
        }
        Insn::Call { .. } => ": of an answer only its range is known",
        Insn::Negate { .. } => ": 0 stays 0, and numbers above it become numbers just below 2^64",
        Insn::SignExtend { .. } | Insn::LoadSigned { .. } => {
            ": the sign is extended, so the result is small or just below 2^64"
        }
        Insn::Load { .. } => ": a load gives any number of its size",
        _ => "",
    }
}

/// Returns the rule by which an instruction leaves a register unset, or an empty text if there is no such rule.
fn unset_rule(insn: &Insn) -> &'static str
    ensures { result.now ≡ unset_rule insn.now }
{
    match insn {
        Insn::Call { .. } => ": after a call r1 to r5 are unset, so keep values in r6 to r9",
        _ => "",
    }
}

/// Returns the rule by which little is known of a register that an instruction set, or an empty text if there is no
/// such rule. `value` is what is known of the register after the instruction.
pub(crate) fn rule_text(insn: &Insn, value: AbsVal) -> &'static str
    ensures { result.now ≡ rule_text insn.now value }
{
    match value {
        AbsVal::Unset => unset_rule(insn),
        AbsVal::Number(numbers) => number_rule(insn, numbers),
        AbsVal::Pointer(..) => "",
    }
}

/// Checks whether a condition compares its numbers as signed.
fn is_signed(condition: Condition) -> bool
    ensures { result ≡ is_signed condition }
{
    match condition {
        Condition::SignedAbove
        | Condition::SignedAtLeast
        | Condition::SignedBelow
        | Condition::SignedAtMost => true,
        _ => false,
    }
}

/// Returns the exponent of a test's limit: 31, 32, 63 or 64. The verifier learns something about a number from the test
/// only if the number is known to be below 2 to this power. `signed` says whether the test compares as signed.
fn limit_bits(width: Width, signed: bool) -> u8
    ensures { result ≡ limit_bits width signed }
{
    match (width, signed) {
        (Width::W32, true) => 31,
        (Width::W32, false) => 32,
        (Width::W64, true) => 63,
        (Width::W64, false) => 64,
    }
}

/// Returns the greatest number about which the verifier can learn something from a test of this width. `signed` says
/// whether the test compares as signed.
fn limit(width: Width, signed: bool) -> u64
    ensures { result ≡ 2 ^ limit_bits width signed - 1 }
{
    match (width, signed) {
        (Width::W32, true) => 0x7fff_ffff,
        (Width::W32, false) => 0xffff_ffff,
        (Width::W64, true) => 0x7fff_ffff_ffff_ffff,
        (Width::W64, false) => u64::MAX,
    }
}

/// Checks whether a value is a number that may be too great for the verifier to learn something from a test of this
/// width. `signed` says whether the test compares as signed.
fn is_past(width: Width, signed: bool, value: AbsVal) -> bool
    ensures { result ≡ is_past (limit_bits width signed) value }
{
    let AbsVal::Number(numbers) = value else {
        return false;
    };
    numbers.greatest() > limit(width, signed)
}

/// The reason for which an instruction says nothing about a register.
#[derive(Clone, Copy)]
pub(crate) enum Passing {
    /// The instruction is a test. It says something only about numbers that are known to be below 2 to this power.
    Test(u8),
    /// The instruction is a copy to this register. A test of the copy says nothing about the original.
    Copied(Reg),
}

/// Returns the beginning of the text that a test says nothing about a register.
#[tactic(auto, unfolding(crate::specs::Rules::tested_text))]
fn tested() -> &'static str
    ensures { result.now ≡ tested_text }
{
    ": such a test narrows only numbers that are known to be below 2^"
}

/// Appends the reason for which an instruction says nothing about a register, such as `: a test of r2 does not narrow
/// it`.
pub(crate) fn put_tells(out: &mut String, tells: Passing) -> Result<(), AllocError>
    ensures { OnOk result (string_bytes out.new ≡ string_bytes out.old ++ passing_text tells) }
{
    match tells {
        Passing::Test(bits) => put_counted(out, tested(), u64::from(bits)),
        Passing::Copied(dst) => put_between(
            out,
            ": a test of r",
            u64::from(dst.number()),
            " does not narrow it",
        ),
    }
}

/// Checks whether an operand is register `r`.
fn is_operand(r: Reg, operand: Operand) -> bool
    ensures { result ≡ is_operand r operand }
{
    match operand {
        Operand::Register(src) => src.number() == r.number(),
        Operand::Immediate(_) => false,
    }
}

/// Returns why the verifier learns nothing about register `r` from an instruction: it is a test for which the number
/// may be too great, or a copy of `r`. Returns `None` if it is neither. `value` is what is known of `r`.
pub(crate) fn passed_by(r: Reg, insn: &Insn, value: AbsVal) -> Option<Passing>
    ensures { result ≡ passed_by r insn.now value }
{
    match insn {
        Insn::Branch {
            width,
            condition,
            dst,
            operand,
            ..
        } => {
            let signed = is_signed(*condition);
            let tests = dst.number() == r.number() || is_operand(r, *operand);
            if tests && is_past(*width, signed, value) {
                return Some(Passing::Test(limit_bits(*width, signed)));
            }
            None
        }
        Insn::Arithmetic {
            width: Width::W64,
            operation: Operation::Move,
            dst,
            operand: Operand::Register(src),
        } => {
            if src.number() == r.number() {
                return Some(Passing::Copied(*dst));
            }
            None
        }
        _ => None,
    }
}
