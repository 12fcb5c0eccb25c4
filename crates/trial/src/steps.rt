//! Writes a trace's lines, one for each step of a program.
ghost use Rattle.std.specs.Prelude.{◌≡◌, ◌++◌, ◌+◌, ◌<◌, ◌≤◌, codes, decimal, length, slice_index, string_bytes, OnOk};
ghost use Rattle.trial.specs.StepLines.{read_told, reads_told, stored_told, before_told, wrote, went, after_told, word_told, words_told, request_told};
ghost use Rattle.trial.specs.Values.{register_told, place_told};

use crate::values::{RegionText, ValueText};
use asm::put_instruction;
use board::span;
use helper::reads::{RegisterTriple, numbered, read_by};
use insn::{Insn, Reg};
use machine::Machine;
use semantics::{Request, Value};
use std::alloc::AllocError;

/// Appends a register and its value, such as `r1 5`.
fn put_register(out: &mut String, activation: &Machine, register: Reg) -> Result<(), AllocError>
    ensures { OnOk result (string_bytes out.new ≡ string_bytes out.old
        ++ register_told activation.now.state.registers register) }
{
    let held = ValueText(activation.value(register));
    let number = register.number();
    write!(out, "r{number} {held}")
}

/// Appends a register that the instruction reads and its value, such as ` ; r1 5`. Appends nothing for `None`.
fn put_read(out: &mut String, activation: &Machine, register: Option<Reg>) -> Result<(), AllocError>
    ensures { OnOk result (string_bytes out.new ≡ string_bytes out.old
        ++ read_told activation.now.state.registers register) }
{
    let Some(register) = register else {
        return Ok(());
    };
    out.push_str(" ; ")?;
    put_register(out, activation, register)
}

/// Appends up to three registers that an instruction reads, and their values.
fn put_reads(out: &mut String, activation: &Machine, read: RegisterTriple) -> Result<(), AllocError>
    ensures { OnOk result (string_bytes out.new ≡ string_bytes out.old
        ++ reads_told activation.now.state.registers read) }
{
    let [first, second, third] = read;
    put_read(out, activation, first)?;
    put_read(out, activation, second)?;
    put_read(out, activation, third)
}

/// Appends where a store writes, such as ` -> stack -8`: the region and offset that `base` points to, plus `offset`.
/// Appends nothing if `base` is not a pointer.
fn put_place(out: &mut String, base: Value, offset: i16) -> Result<(), AllocError>
    ensures { OnOk result (string_bytes out.new ≡ string_bytes out.old ++ place_told offset base) }
{
    let Value::Pointer(region, at) = base else {
        return Ok(());
    };
    let place = RegionText(region);
    let at = i64::from(at) + i64::from(offset);
    write!(out, " -> {place} {at}")
}

/// Appends where the instruction stores, such as ` -> stack -8`. Appends nothing if it is not a store.
fn put_stored(out: &mut String, activation: &Machine, insn: &Insn) -> Result<(), AllocError>
    ensures { OnOk result (string_bytes out.new ≡ string_bytes out.old
        ++ stored_told activation.now.state.registers insn.now) }
{
    match insn {
        Insn::Store { base, offset, .. } => put_place(out, activation.value(*base), *offset),
        _ => Ok(()),
    }
}

/// Appends the first part of a trace line, with the state before the step: the unit, its instruction, the registers
/// that it reads and their values, and where it stores.
///
/// # Errors
///
/// Fails with `AllocError` if there is no memory for the text.
pub fn put_before(out: &mut String, activation: &Machine, insn: &Insn) -> Result<(), AllocError>
    ensures { OnOk result (string_bytes out.new ≡ string_bytes out.old
        ++ before_told activation.now.state.unit activation.now.state.registers insn.now) }
{
    let unit = activation.unit();
    write!(out, "{unit} ")?;
    put_instruction(out, insn)?;
    put_reads(out, activation, read_by(insn))?;
    put_stored(out, activation, insn)
}

/// Appends a register that the instruction wrote and its value, such as ` -> r0 1`.
fn put_wrote(out: &mut String, activation: &Machine, register: Reg) -> Result<(), AllocError>
    ensures { OnOk result (string_bytes out.new ≡ string_bytes out.old
        ++ wrote activation.now.state.registers register) }
{
    out.push_str(" -> ")?;
    put_register(out, activation, register)
}

/// Appends the unit at which the program continues after a jump, such as ` -> unit 7`.
fn put_went(out: &mut String, activation: &Machine) -> Result<(), AllocError>
    ensures { OnOk result (string_bytes out.new ≡ string_bytes out.old ++ went activation.now.state.unit) }
{
    let unit = activation.unit();
    write!(out, " -> unit {unit}")
}

/// Appends the second part of a trace line, with the state after the step: the register that the instruction wrote,
/// or the unit to which it jumped. Appends nothing for a store or an exit.
///
/// # Errors
///
/// Fails with `AllocError` if there is no memory for the text.
pub fn put_after(out: &mut String, activation: &Machine, insn: &Insn) -> Result<(), AllocError>
    ensures { OnOk result (string_bytes out.new ≡ string_bytes out.old
        ++ after_told activation.now.state.unit activation.now.state.registers insn.now) }
{
    match insn {
        Insn::Arithmetic { dst, .. } => put_wrote(out, activation, *dst),
        Insn::Negate { dst, .. } => put_wrote(out, activation, *dst),
        Insn::SignExtend { dst, .. } => put_wrote(out, activation, *dst),
        Insn::Swap { dst, .. } => put_wrote(out, activation, *dst),
        Insn::LoadImmediate { dst, .. } => put_wrote(out, activation, *dst),
        Insn::Load { dst, .. } => put_wrote(out, activation, *dst),
        Insn::LoadSigned { dst, .. } => put_wrote(out, activation, *dst),
        Insn::Call { .. } => put_wrote(out, activation, numbered(0)),
        Insn::Jump { .. } | Insn::LongJump { .. } | Insn::Branch { .. } => {
            put_went(out, activation)
        }
        Insn::Store { .. } | Insn::Exit => Ok(()),
    }
}

/// Appends a word of the board with its values before (`words`) and after (`left`) a request.
fn put_word(
    out: &mut String,
    slot: usize,
    words: &[u64; 64],
    left: &[u64; 64],
) -> Result<(), AllocError>
    requires { slot < 64 }
    ensures { OnOk result (string_bytes out.new ≡ string_bytes out.old ++ word_told slot words.now left.now) }
{
    let (before, after) = (words[slot], left[slot]);
    write!(out, " ; word {slot} {before} to {after}")
}

/// Appends `count` words of the board from index `slot` on, with their values before (`words`) and after (`left`) a
/// request.
#[tactic(auto, unfolding(crate::specs::StepLines::words_told))]
fn put_words(
    out: &mut String,
    slot: usize,
    count: usize,
    words: &[u64; 64],
    left: &[u64; 64],
) -> Result<(), AllocError>
    requires { slot + count ≤ 64 }
    ensures { OnOk result (string_bytes out.new ≡ string_bytes out.old ++ words_told slot count words.now left.now) }
{
    if count == 0 {
        return Ok(());
    }
    put_word(out, slot, words, left)?;
    put_words(out, slot + 1, count - 1, words, left)
}

/// Appends the words of the board that a request uses, with their values before (`words`) and after (`left`) the
/// request.
///
/// # Errors
///
/// Fails with `AllocError` if there is no memory for the text.
pub fn put_request(
    out: &mut String,
    request: &Request,
    words: &[u64; 64],
    left: &[u64; 64],
) -> Result<(), AllocError>
    ensures { OnOk result (string_bytes out.new ≡ string_bytes out.old ++ request_told request.now words.now left.now) }
{
    let (slot, count) = span(request);
    put_words(out, slot, count, words, left)
}
