//! Decodes bytes to instructions and programs, and finds the first fault of bytes that encode no program.
ghost use Rattle.std.specs.Prelude.{◌≡◌, ◌≤◌, ◌<◌, ◌+◌, ◌*◌, ◌/◌, length, take, drop, IfOk, IfErr, MatchOption, MatchResult, Ok, Err, Some, List};
ghost use Rattle.insn.specs.declared.insn.Insn.{Insn as InsnValue};
ghost use Rattle.insn.specs.Insn.{IsInsn, units_of};
ghost use Rattle.insn.specs.Program.{slots_of};
ghost use Rattle.codec.specs.Spelling.{spelling, instruction_bytes};
ghost use Rattle.codec.specs.Reading.{fields_of, fault_at, AreUnits};
ghost use Rattle.codec.specs.Program.{SpellsProgram, IsFirstFault, IsAnswered};

use crate::fault::{CodecError, CodecFault};
use crate::fields::read_fields;
use crate::form::{Form, form_at};
use crate::{arithmetic, jump, memory};
use insn::{Insn, Operand, Program, Reg};
use std::alloc::{AllocError, Global};
use word::{Operation, Width};

/// Stores a decoded instruction in `place`, and returns the number of its units, 1 or 2. If `read` is a fault, fails
/// with it and stores nothing.
#[inline(always)]
fn put(place: &mut Insn, read: Result<Insn, CodecFault>) -> Result<u16, CodecFault>
    ensures { MatchResult result (λ n. (read ≡ Ok place.new) × (n ≡ units_of place.new)) (λ e. read ≡ Err e) }
{
    match read {
        Ok(insn) => {
            *place = insn;
            Ok(place.units())
        }
        Err(fault) => Err(fault),
    }
}

/// Decodes the instruction at the beginning of `bytes` into `place`, and returns the number of its units, 1 or 2. Fails
/// with its first fault. Each case reads the fields of the unit itself, so that only those that it uses are read.
#[inline(always)]
fn meaning(place: &mut Insn, bytes: &[u8]) -> Result<u16, CodecFault>
    requires { 8 ≤ length bytes.now }
    ensures found { IfOk result (λ n. (n ≡ units_of place.new)
        × IsInsn place.new × AreUnits (spelling place.new) (fields_of bytes.now) (drop 8 bytes.now)) }
    ensures fault { IfErr result (λ e. fault_at bytes.now ≡ Some e) }
{
    match *form_at(read_fields(bytes).opcode) {
        Form::Immediate(width, operation) => put(
            place,
            arithmetic::immediate(width, operation, read_fields(bytes)),
        ),
        Form::Register(width, operation) => put(
            place,
            arithmetic::register(width, operation, read_fields(bytes)),
        ),
        Form::DivideImmediate(width, division) => put(
            place,
            arithmetic::divide_immediate(width, division, read_fields(bytes)),
        ),
        Form::DivideRegister(width, division) => put(
            place,
            arithmetic::divide_register(width, division, read_fields(bytes)),
        ),
        Form::MoveRegister(width) => put(
            place,
            arithmetic::move_register(width, read_fields(bytes)),
        ),
        Form::Negate(width) => put(place, arithmetic::negate(width, read_fields(bytes))),
        Form::Swap(order) => put(place, arithmetic::swap(order, read_fields(bytes))),
        Form::LoadImmediate => put(
            place,
            memory::load_immediate(read_fields(bytes), &bytes[8..]),
        ),
        Form::Jump => put(place, jump::near(read_fields(bytes))),
        Form::LongJump => put(place, jump::long(read_fields(bytes))),
        Form::BranchImmediate(width, condition) => put(
            place,
            jump::branch_immediate(width, condition, read_fields(bytes)),
        ),
        Form::BranchRegister(width, condition) => put(
            place,
            jump::branch_register(width, condition, read_fields(bytes)),
        ),
        Form::Load(size) => put(place, memory::load(size, read_fields(bytes))),
        Form::LoadSigned(part) => put(place, memory::load_signed(part, read_fields(bytes))),
        Form::StoreImmediate(size) => put(place, memory::store_immediate(size, read_fields(bytes))),
        Form::StoreRegister(size) => put(place, memory::store_register(size, read_fields(bytes))),
        Form::Call => put(place, jump::call(read_fields(bytes))),
        Form::Exit => put(place, jump::exit(read_fields(bytes))),
        Form::LeftOut => Err(CodecFault::LeftOut),
        Form::Unknown => Err(CodecFault::Opcode),
    }
}

/// Decodes the instruction at the beginning of `bytes` into `place`, and returns the number of its units, 1 or 2. Fails
/// with its first fault. Any bytes may follow the instruction.
#[inline(always)]
fn read(place: &mut Insn, bytes: &[u8]) -> Result<u16, CodecFault>
    requires { 8 ≤ length bytes.now }
    ensures units { IfOk result (λ n. n ≡ units_of place.new) }
    ensures well_formed { IfOk result (λ _. IsInsn place.new) }
    ensures inside { IfOk result (λ _. 8 * units_of place.new ≤ length bytes.now) }
    ensures found { IfOk result (λ _. take (8 * units_of place.new) bytes.now ≡ instruction_bytes place.new) }
    ensures fault { IfErr result (λ e. fault_at bytes.now ≡ Some e) }
{
    meaning(place, bytes)
}

/// Decodes the instruction at the beginning of `bytes`. Any bytes may follow it.
///
/// # Errors
///
/// The instruction's first fault.
pub fn instruction(bytes: &[u8]) -> Result<Insn, CodecFault>
    requires { 8 ≤ length bytes.now }
    ensures well_formed { IfOk result (λ i. IsInsn i) }
    ensures inside { IfOk result (λ i. 8 * units_of i ≤ length bytes.now) }
    ensures found { IfOk result (λ i. take (8 * units_of i) bytes.now ≡ instruction_bytes i) }
    ensures fault { IfErr result (λ e. fault_at bytes.now ≡ Some e) }
{
    let mut insn = Insn::Exit;
    match read(&mut insn, bytes) {
        Ok(_) => Ok(insn),
        Err(fault) => Err(fault),
    }
}

/// Returns `units` blank instructions. Their bytes are all zero, so that they are made at once. Fails with `AllocError`
/// if out of memory.
fn blank_places(alloc: Global, units: usize) -> Result<Vec<Insn>, AllocError>
    ensures { IfOk result (λ v. length v.items ≡ units) }
{
    let blank = match Reg::new(0) {
        Some(register) => Insn::Arithmetic {
            width: Width::W32,
            operation: Operation::Add,
            dst: register,
            operand: Operand::Register(register),
        },
        None => Insn::Exit,
    };
    vec![in alloc; blank; units]
}

/// Decodes the instructions of `bytes` into the first items of `places`, and returns how many there are. Fails with the
/// first fault and its unit.
#[inline(never)]
fn fill(places: &mut [Insn], bytes: &[u8]) -> Result<usize, CodecError>
    requires whole { length bytes.now ≡ 8 * length places.old }
    requires some { 0 < length places.old }
    requires bound { length places.old ≤ 4096 }
    ensures units { IfOk result (λ n. length (slots_of (take n places.new)) ≡ length places.old) }
    ensures found { IfOk result (λ n. SpellsProgram bytes.now (take n places.new)) }
    ensures fault { IfErr result (λ e. IsAnswered bytes.now e) }
{
    let mut count = 0;
    let mut unit = 0;
    while unit < places.len() {
        match read(&mut places[count], &bytes[8 * unit..]) {
            Ok(units) => {
                unit += units as usize;
                count += 1;
            }
            Err(fault) => return Err(CodecError::At(fault, unit)),
        }
    }
    Ok(count)
}

/// Decodes the instructions of `bytes`, which have `units` units of 8 bytes. Fails with the first fault and its unit,
/// or with `Memory`.
fn instructions(alloc: Global, bytes: &[u8], units: usize) -> Result<Vec<Insn>, CodecError>
    requires whole { length bytes.now ≡ 8 * units }
    requires some { 0 < units }
    requires bound { units ≤ 4096 }
    ensures units { IfOk result (λ v. length (slots_of v.items) ≡ units) }
    ensures found { IfOk result (λ v. SpellsProgram bytes.now v.items) }
    ensures fault { IfErr result (λ e. IsAnswered bytes.now e) }
{
    let mut places = blank_places(alloc, units)?;
    let count = fill(places.as_mut_slice(), bytes)?;
    places.truncate(count);
    Ok(places)
}

/// Decodes the program that the bytes encode.
///
/// # Errors
///
/// The first fault and its unit: the length is checked first, then the number of units (1 to 4,096), then the
/// instructions in order. `Memory` if out of memory.
pub fn decode(alloc: Global, bytes: &[u8]) -> Result<Program, CodecError>
    // The bytes encode the program that is returned.
    ensures found { IfOk result (λ p. SpellsProgram bytes.now p) }
    // An error is the first fault, unless memory runs out.
    ensures fault { IfErr result (λ e. IsAnswered bytes.now e) }
    // If the bytes encode a program, that program is returned, unless memory runs out.
    ensures only { (p : List InsnValue) → SpellsProgram bytes.now p →
        MatchResult result (λ q. q ≡ p) (λ e. e ≡ CodecError.Memory) }
{
    let units = bytes.len() / 8;
    if bytes.len() % 8 != 0 {
        return Err(CodecError::At(CodecFault::Length, units));
    }
    if units == 0 || units > Program::MOST_UNITS {
        return Err(CodecError::At(CodecFault::Count, 0));
    }
    Ok(Program::of_units(alloc, instructions(alloc, bytes, units)?, units)?)
}

/// Returns the first fault of `bytes` with its unit, as `decode` reports it, or `None` exactly if the bytes encode a
/// program. The function allocates no memory.
pub fn first_fault(bytes: &[u8]) -> Option<(CodecFault, usize)>
    ensures { MatchOption result ((p : List InsnValue)
        × SpellsProgram bytes.now p) (λ found. IsFirstFault bytes.now found.0 found.1) }
{
    let units = bytes.len() / 8;
    if bytes.len() % 8 != 0 {
        return Some((CodecFault::Length, units));
    }
    if units == 0 || Program::MOST_UNITS < units {
        return Some((CodecFault::Count, 0));
    }
    first_fault_of(bytes, units)
}

/// Returns the first fault of the instructions in `bytes` with its unit, or `None` if there is none. The bytes have
/// `units` units of 8 bytes.
fn first_fault_of(bytes: &[u8], units: usize) -> Option<(CodecFault, usize)>
    requires whole { length bytes.now ≡ 8 * units }
    requires some { 0 < units }
    requires bound { units ≤ 4096 }
    ensures { MatchOption result ((p : List InsnValue)
        × SpellsProgram bytes.now p) (λ found. IsFirstFault bytes.now found.0 found.1) }
{
    let mut unit = 0;
    while unit < units {
        match instruction(&bytes[8 * unit..]) {
            Ok(insn) => unit += insn.units() as usize,
            Err(fault) => return Some((fault, unit)),
        }
    }
    None
}
