//! Computes the results of arithmetic instructions and comparisons.
ghost use Rattle.std.specs.Prelude.{◌≡◌, IsOk, Ok};
ghost use Rattle.word.specs.Arithmetic.{arithmetic, compared};
ghost use Rattle.semantics.specs.Step.{number_of};
ghost use Rattle.verify.specs.Work.{operation_of};

use semantics::Value;
use verify::SizedOperation;
use word::arithmetic::{alu32, alu64};
use word::comparison::{compare32, compare64};
use word::{Condition, Operation, Width};

/// Returns the number that `value` is. It must be a number.
pub fn number_of(value: Value) -> u64
    requires { IsOk (number_of value) }
    ensures { number_of value ≡ Ok result }
{
    match value {
        Value::Number(number) => number,
        _ => unreachable!(),
    }
}

/// Returns the result of an operation on two numbers. At 32 bits, only their low halves are used.
#[inline(always)]
pub fn arithmetic(width: Width, operation: Operation, a: u64, b: u64) -> u64
    ensures { result ≡ arithmetic width operation a b }
{
    match width {
        Width::W64 => alu64(operation, a, b),
        Width::W32 => alu32(operation, a, b),
    }
}

/// Returns the result of an operation on two numbers. `work` is an operation other than a move, with its width.
#[inline(always)]
pub fn worked(work: SizedOperation, a: u64, b: u64) -> u64
    ensures { result ≡ arithmetic (operation_of work).0 (operation_of work).1 a b }
{
    match work {
        SizedOperation::Add64 => alu64(Operation::Add, a, b),
        SizedOperation::Sub64 => alu64(Operation::Sub, a, b),
        SizedOperation::Mul64 => alu64(Operation::Mul, a, b),
        SizedOperation::Div64 => alu64(Operation::Div, a, b),
        SizedOperation::SignedDiv64 => alu64(Operation::SignedDiv, a, b),
        SizedOperation::Or64 => alu64(Operation::Or, a, b),
        SizedOperation::And64 => alu64(Operation::And, a, b),
        SizedOperation::ShiftLeft64 => alu64(Operation::ShiftLeft, a, b),
        SizedOperation::ShiftRight64 => alu64(Operation::ShiftRight, a, b),
        SizedOperation::Mod64 => alu64(Operation::Mod, a, b),
        SizedOperation::SignedMod64 => alu64(Operation::SignedMod, a, b),
        SizedOperation::Xor64 => alu64(Operation::Xor, a, b),
        SizedOperation::ArithmeticShiftRight64 => alu64(Operation::ArithmeticShiftRight, a, b),
        SizedOperation::Add32 => alu32(Operation::Add, a, b),
        SizedOperation::Sub32 => alu32(Operation::Sub, a, b),
        SizedOperation::Mul32 => alu32(Operation::Mul, a, b),
        SizedOperation::Div32 => alu32(Operation::Div, a, b),
        SizedOperation::SignedDiv32 => alu32(Operation::SignedDiv, a, b),
        SizedOperation::Or32 => alu32(Operation::Or, a, b),
        SizedOperation::And32 => alu32(Operation::And, a, b),
        SizedOperation::ShiftLeft32 => alu32(Operation::ShiftLeft, a, b),
        SizedOperation::ShiftRight32 => alu32(Operation::ShiftRight, a, b),
        SizedOperation::Mod32 => alu32(Operation::Mod, a, b),
        SizedOperation::SignedMod32 => alu32(Operation::SignedMod, a, b),
        SizedOperation::Xor32 => alu32(Operation::Xor, a, b),
        SizedOperation::ArithmeticShiftRight32 => alu32(Operation::ArithmeticShiftRight, a, b),
    }
}

/// Returns whether a condition holds for two numbers. At 32 bits, only their low halves are compared.
pub fn compared(width: Width, condition: Condition, a: u64, b: u64) -> bool
    ensures { result ≡ compared width condition a b }
{
    match width {
        Width::W64 => compare64(condition, a, b),
        Width::W32 => compare32(condition, a, b),
    }
}
