//! What the verifier knows of the eleven registers.
ghost use Rattle.std.specs.Prelude.{◌≡◌, ◌<◌, slice_set, IsTrue};
ghost use Rattle.absval.specs.Table.{joined};
ghost use Rattle.verify.specs.Registers.{known_at, operand_known, first_known, joined_all};
ghost use Rattle.verify.specs.Knowledge.{at_entry};

use crate::state::AbsState;
use absmem::AbsStack;
use absval::{AbsVal, NumberSet, Offsets};
use insn::{Operand, Reg};
use semantics::Region;
use word::Operation;

/// The offset 0: the beginning of the context, or the end of the stack.
const AT_ZERO: Offsets = Offsets { low: 0, high: 0 };

/// Returns what is known at the entry: r1 points to the context, and r10 to the end of the stack. Nothing is known of
/// the other registers and of the stack cells.
pub fn at_entry() -> AbsState
    ensures { result ≡ at_entry }
{
    let mut registers = [AbsVal::Unset; 11];
    registers[1] = AbsVal::Pointer(Region::Context, AT_ZERO);
    registers[10] = AbsVal::Pointer(Region::Stack, AT_ZERO);
    AbsState {
        registers,
        stack: AbsStack::unknown(),
    }
}

/// Returns what is known of the register with this number, 0 to 10.
pub fn known_at(registers: &[AbsVal; 11], number: usize) -> AbsVal
    requires { number < 11 }
    ensures { result ≡ known_at registers.now number }
{
    registers[number]
}

/// Returns what is known of a register.
pub fn read(registers: &[AbsVal; 11], r: Reg) -> AbsVal
    ensures { result ≡ known_at registers.now r }
{
    known_at(registers, r.number() as usize)
}

/// Returns a reference to what is known of a register.
#[inline(always)]
pub fn at(registers: &[AbsVal; 11], r: Reg) -> &AbsVal
    ensures { result.now ≡ known_at registers.now r }
{
    &registers[r.number() as usize]
}

/// Returns what is known of an operand.
pub fn operand(registers: &[AbsVal; 11], operand: Operand) -> AbsVal
    ensures { result ≡ operand_known registers.now operand }
{
    match operand {
        Operand::Register(r) => read(registers, r),
        Operand::Immediate(number) => absval::immediate(number),
    }
}

/// Returns what is known of the value of `dst` before an operation on it. For a move, which does not read `dst`,
/// returns the number 0.
pub fn first(registers: &[AbsVal; 11], operation: Operation, dst: Reg) -> AbsVal
    ensures { result ≡ first_known registers.now operation dst }
{
    match operation {
        Operation::Move => AbsVal::Number(NumberSet::exactly(0)),
        _ => read(registers, dst),
    }
}

/// Replaces what is known of register `r`.
pub fn write(registers: &mut [AbsVal; 11], r: Reg, value: AbsVal)
    ensures { registers.new ≡ slice_set registers.old r value }
{
    registers[r.number() as usize] = value;
}

/// Joins what is known of each register on two paths to the same unit: `registers` becomes what holds on both.
pub fn join(registers: &mut [AbsVal; 11], other: &[AbsVal; 11])
    ensures { registers.new ≡ joined_all registers.old other.now }
{
    for i in 0..11 {
        join_one(&mut registers[i], &other[i]);
    }
}

/// Joins what is known of one register on two paths: `register` becomes what holds on both. For speed, only what
/// changes is written.
fn join_one(register: &mut AbsVal, other: &AbsVal)
    ensures { register.new ≡ joined register.old other.now }
{
    match (&mut *register, other) {
        (AbsVal::Unset, _) => {}
        (AbsVal::Number(numbers), AbsVal::Number(others)) => *numbers = numbers.join(*others),
        (AbsVal::Pointer(region, offsets), _) if is_pointer(other, *region, *offsets) => {}
        _ => *register = absval::join(*register, *other),
    }
}

/// Checks whether a value is known to be the pointer into `region` with exactly these offsets.
fn is_pointer(value: &AbsVal, region: Region, offsets: Offsets) -> bool
    ensures { IsTrue result → value.now ≡ AbsVal.Pointer region offsets }
{
    match value {
        AbsVal::Pointer(other, others) => *other == region && *others == offsets,
        AbsVal::Unset | AbsVal::Number(_) => false,
    }
}

/// Copies `other` into `registers`.
pub fn assign(registers: &mut [AbsVal; 11], other: &[AbsVal; 11])
    ensures { registers.new ≡ other.now }
{
    registers.copy_from_slice(other);
}

/// Returns a copy of the registers.
pub fn copied(registers: &[AbsVal; 11]) -> [AbsVal; 11]
    ensures { result ≡ registers.now }
{
    let mut copy = [AbsVal::Unset; 11];
    assign(&mut copy, registers);
    copy
}
