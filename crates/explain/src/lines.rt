//! Writes the explanation of a program: a line for each unit, and the reason if the program is rejected.
ghost use Rattle.std.specs.Prelude.{◌≡◌, ◌≤◌, ◌<◌, ◌++◌, length, option_map, slice_get, string_bytes, IfOk, OnOk};
ghost use Rattle.insn.specs.Program.{slots_of};
ghost use Rattle.explain.specs.Notes.{subject_of};
ghost use Rattle.explain.specs.Explained.{read_text, reads_text, known_text, place_text, unit_line, result_text, given_text, is_at, behind_text, whole_line, line_if, known_lines, target_of, sentence_of, sentence_line, about_text, told_text, refused_text, explained, explained_at};
ghost use Rattle.explain.specs.Here.{IsSurveyed, known_of};
ghost use Rattle.explain.specs.Units.{written_in};

use crate::cells::put_cells_read;
use crate::edit_choices::wanted;
use crate::helps::put_help;
use crate::notes::{put_notes_on, put_number_notes, subject_of};
use crate::origins::other_number;
use crate::refusal_text::{put_named, put_sentence_text};
use crate::sentence::{Sentence, Structure};
use crate::shortfall::shortfall;
use crate::sources::{Here, Surveyed};
use crate::units::{UnitTexts, put_insn_at};
use asm::put;
use helper::reads::{RegisterTriple, read_by};
use insn::{Insn, Program, Reg};
use reaching::{columns, known_by, left_by, marks, result_of};
use std::alloc::{AllocError, Global};
use verify::{AbsState, Reason, VerifyError, known_at_units};

/// Appends the name of a register that an instruction reads, and what is known of it, such as ` ; r1 context 0`.
/// Appends nothing if there is no register.
#[inline(never)]
fn put_read(out: &mut String, state: &AbsState, register: Option<Reg>) -> Result<(), AllocError>
    ensures { OnOk result (string_bytes out.new ≡ string_bytes out.old ++ read_text state.now.registers register) }
{
    let Some(r) = register else {
        return Ok(());
    };
    put(out, " ; ")?;
    put_named(out, r, state.known(r))
}

/// Appends the names of the registers that an instruction reads, and what is known of each, such as ` ; r1 context 0`.
fn put_reads(out: &mut String, state: &AbsState, read: RegisterTriple) -> Result<(), AllocError>
    ensures { OnOk result (string_bytes out.new ≡ string_bytes out.old ++ reads_text state.now.registers read) }
{
    let [first, second, third] = read;
    put_read(out, state, first)?;
    put_read(out, state, second)?;
    put_read(out, state, third)
}

/// Appends what is known of the registers and stack cells that the instruction at `unit` reads. If `state` is `None`,
/// no path leads to it, and the text says so.
fn put_known(
    out: &mut String,
    surveyed: &Surveyed<'_>,
    unit: usize,
    insn: &Insn,
    state: Option<&AbsState>,
) -> Result<(), AllocError>
    requires inside { unit < length (slots_of surveyed.now.program.now) }
    requires surveyed { IsSurveyed surveyed.now }
    ensures { OnOk result (string_bytes out.new ≡ string_bytes out.old
        ++ known_text surveyed.now.program.now (known_of surveyed.now) unit insn.now
        (option_map (λ a. a.now) state.entry)) }
{
    let Some(state) = state else {
        return put(out, " ; no path leads here");
    };
    put_reads(out, state, read_by(insn))?;
    let here = Here {
        surveyed: *surveyed,
        unit,
        stack: &state.stack,
    };
    put_cells_read(out, &here, insn, state)
}

/// Appends a line break, the number of a unit, its place in the source text, and its instruction.
fn put_place(
    out: &mut String,
    written: &UnitTexts<'_>,
    unit: usize,
    insn: &Insn,
) -> Result<(), AllocError>
    ensures { OnOk result (string_bytes out.new ≡ string_bytes out.old
        ++ place_text (written_in written.now) unit insn.now) }
{
    put(out, "\n")?;
    put_insn_at(out, written, unit, insn)
}

/// Appends the line of a unit: its instruction, and what is known of the registers and stack cells that it reads.
fn put_unit(
    out: &mut String,
    written: &UnitTexts<'_>,
    surveyed: &Surveyed<'_>,
    unit: usize,
    insn: &Insn,
    state: Option<&AbsState>,
) -> Result<(), AllocError>
    requires inside { unit < length (slots_of surveyed.now.program.now) }
    requires surveyed { IsSurveyed surveyed.now }
    ensures { OnOk result (string_bytes out.new ≡ string_bytes out.old
        ++ unit_line (written_in written.now) surveyed.now.program.now (known_of surveyed.now) unit insn.now
        (option_map (λ a. a.now) state.entry)) }
{
    put_place(out, written, unit, insn)?;
    put_known(out, surveyed, unit, insn, state)
}

/// Appends the register that an instruction sets, and what is known of it afterwards, such as ` -> r0 0 to 255`.
/// Appends nothing if it sets none. `left` is the state after the instruction.
fn put_result(out: &mut String, register: Option<Reg>, left: &AbsState) -> Result<(), AllocError>
    ensures { OnOk result (string_bytes out.new ≡ string_bytes out.old ++ result_text register left.now) }
{
    let Some(r) = register else {
        return Ok(());
    };
    put(out, " -> ")?;
    put_named(out, r, left.known(r))
}

/// Appends the register that an instruction sets, and what is known of it afterwards. Appends nothing if it sets none,
/// or no path leads to it. `state` is the state before the instruction.
fn put_given(out: &mut String, insn: &Insn, state: Option<&AbsState>) -> Result<(), AllocError>
    ensures { OnOk result (string_bytes out.new ≡ string_bytes out.old
        ++ given_text insn.now (option_map (λ a. a.now) state.entry)) }
{
    match state {
        None => Ok(()),
        Some(state) => {
            let left = left_by(insn, state);
            put_result(out, result_of(insn), &left)
        }
    }
}

/// Checks whether the verifier found the fault at this unit.
fn is_at(fault: &Option<VerifyError>, unit: usize) -> bool
    ensures { result ≡ is_at fault.now unit }
{
    match fault {
        Some(VerifyError::At(_, place)) => *place == unit,
        _ => false,
    }
}

/// Appends the register that the instruction at `unit` sets, and what is known of it afterwards. Appends nothing if the
/// fault is at this unit.
fn put_behind(
    out: &mut String,
    fault: &Option<VerifyError>,
    unit: usize,
    insn: &Insn,
    state: &Option<AbsState>,
) -> Result<(), AllocError>
    ensures { OnOk result (string_bytes out.new ≡ string_bytes out.old
        ++ behind_text fault.now unit insn.now state.now) }
{
    if is_at(fault, unit) {
        return Ok(());
    }
    put_given(out, insn, state.as_ref())
}

/// Appends the line of a unit: its instruction, what is known of the registers and stack cells that it reads, and what
/// is known of its result.
fn put_line(
    out: &mut String,
    written: &UnitTexts<'_>,
    surveyed: &Surveyed<'_>,
    fault: &Option<VerifyError>,
    unit: usize,
    insn: &Insn,
    state: &Option<AbsState>,
) -> Result<(), AllocError>
    requires inside { unit < length (slots_of surveyed.now.program.now) }
    requires surveyed { IsSurveyed surveyed.now }
    ensures { OnOk result (string_bytes out.new ≡ string_bytes out.old
        ++ whole_line (written_in written.now) surveyed.now.program.now
        (known_of surveyed.now) fault.now unit insn.now state.now) }
{
    put_unit(out, written, surveyed, unit, insn, state.as_ref())?;
    put_behind(out, fault, unit, insn, state)
}

/// Appends the line of a unit. Appends nothing if the verifier stopped at a fault before it.
fn put_reached(
    out: &mut String,
    written: &UnitTexts<'_>,
    surveyed: &Surveyed<'_>,
    fault: &Option<VerifyError>,
    unit: usize,
    insn: &Insn,
) -> Result<(), AllocError>
    requires { IsSurveyed surveyed.now }
    ensures { OnOk result (string_bytes out.new ≡ string_bytes out.old
        ++ line_if (written_in written.now) surveyed.now.program.now (known_of surveyed.now) fault.now unit insn.now
        (known_of surveyed.now unit)) }
{
    match surveyed.states.get(unit) {
        Some(state) => put_line(out, written, surveyed, fault, unit, insn, state),
        None => Ok(()),
    }
}

/// Appends a line for each unit that the verifier reached before it stopped or came to the end.
fn put_units(
    out: &mut String,
    written: &UnitTexts<'_>,
    surveyed: &Surveyed<'_>,
    fault: &Option<VerifyError>,
    insns: &[Insn],
) -> Result<(), AllocError>
    requires surveyed { IsSurveyed surveyed.now }
    requires few { length (slots_of insns.now) ≤ 4096 }
    ensures { OnOk result (string_bytes out.new ≡ string_bytes out.old
        ++ known_lines (written_in written.now) surveyed.now.program.now
        (known_of surveyed.now) fault.now 0 insns.now) }
{
    let mut unit = 0;
    for insn in insns {
        put_reached(out, written, surveyed, fault, unit, insn)?;
        unit += insn.units() as usize;
    }
    Ok(())
}

/// Returns the unit to which a jump at `unit` leads. It may be outside the program, and even negative. Returns `None`
/// if the instruction is not a jump.
fn target_of(unit: usize, insn: &Insn) -> Option<i64>
    requires { unit < 4096 }
    ensures { result ≡ target_of unit insn.now }
{
    let distance = match insn {
        Insn::Jump { distance } => i64::from(*distance),
        Insn::LongJump { distance } => i64::from(*distance),
        Insn::Branch { distance, .. } => i64::from(*distance),
        _ => return None,
    };
    Some(unit as i64 + 1 + distance)
}

/// Returns the sentence that says why the instruction at `unit` is rejected. Returns `None` if the reason does not fit
/// the instruction or its state. `units` is the program's number of units.
fn sentence_of(
    units: usize,
    reason: Reason,
    unit: usize,
    insn: &Insn,
    state: Option<&AbsState>,
) -> Option<Sentence>
    requires { unit < 4096 }
    ensures { result ≡ sentence_of units reason unit insn.now (option_map (λ a. a.now) state.entry) }
{
    let structure = match reason {
        Reason::BackJump => Structure::Back(target_of(unit, insn)?),
        Reason::JumpOut => Structure::Out(target_of(unit, insn)?, units),
        Reason::JumpInWide => Structure::Inside(target_of(unit, insn)?),
        Reason::LastNotExit => Structure::NoExit,
        _ => return shortfall(reason, insn, state?),
    };
    Some(Sentence::Structure(structure))
}

/// Appends a line with the rejected instruction and the sentence that says why it is rejected.
fn put_sentence(
    out: &mut String,
    written: &UnitTexts<'_>,
    unit: usize,
    insn: &Insn,
    sentence: Sentence,
) -> Result<(), AllocError>
    ensures { OnOk result (string_bytes out.new ≡ string_bytes out.old
        ++ sentence_line (written_in written.now) unit insn.now sentence) }
{
    put_place(out, written, unit, insn)?;
    put(out, ": ")?;
    put_sentence_text(out, sentence)
}

/// Appends notes on where the subject of a sentence, a register or stack cell, got its value, and a line with an edit
/// that helps, if one is found. Appends nothing if the sentence has no subject.
fn put_about(
    alloc: Global,
    out: &mut String,
    written: &UnitTexts<'_>,
    program: &Program,
    states: &[Option<AbsState>],
    unit: usize,
    insn: &Insn,
    sentence: &Sentence,
) -> Result<(), AllocError>
    requires inside { unit < length (slots_of program.now) }
    requires few { unit < 4096 }
    ensures { OnOk result (string_bytes out.new ≡ string_bytes out.old
        ++ about_text (written_in written.now) (slice_get states.now) program.now unit insn.now sentence.now
        (subject_of sentence.now)) }
{
    let Some(asked) = subject_of(sentence) else {
        return Ok(());
    };
    let marked = marks(alloc, program, states, &asked, unit)?;
    put_notes_on(
        alloc,
        out,
        written,
        program,
        states,
        &asked,
        marked.as_slice(),
        unit,
    )?;
    let number = other_number(insn, known_by(states, unit), sentence);
    put_number_notes(alloc, out, written, program, states, unit, number)?;
    let choice = wanted(program, marked.as_slice(), unit, insn, sentence);
    put_help(alloc, out, program, unit, choice)
}

/// Appends a line with the rejected instruction and why it is rejected, then notes on where the values at fault came
/// from, and an edit that helps, if one is found. Appends nothing if there is no sentence.
fn put_told(
    alloc: Global,
    out: &mut String,
    written: &UnitTexts<'_>,
    program: &Program,
    states: &[Option<AbsState>],
    unit: usize,
    insn: &Insn,
    sentence: &Option<Sentence>,
) -> Result<(), AllocError>
    requires inside { unit < length (slots_of program.now) }
    requires few { unit < 4096 }
    ensures { OnOk result (string_bytes out.new ≡ string_bytes out.old
        ++ told_text (written_in written.now) (slice_get states.now) program.now unit insn.now sentence.now) }
{
    let Some(sentence) = sentence else {
        return Ok(());
    };
    put_sentence(out, written, unit, insn, *sentence)?;
    put_about(alloc, out, written, program, states, unit, insn, sentence)
}

/// Appends why a program is rejected, with notes and a help. Appends nothing if the program is accepted.
fn put_refused(
    alloc: Global,
    out: &mut String,
    written: &UnitTexts<'_>,
    program: &Program,
    states: &[Option<AbsState>],
    fault: Option<VerifyError>,
) -> Result<(), AllocError>
    ensures { OnOk result (string_bytes out.new ≡ string_bytes out.old
        ++ refused_text (written_in written.now) (slice_get states.now) program.now fault) }
{
    let Some(VerifyError::At(reason, unit)) = fault else {
        return Ok(());
    };
    let Some(insn) = program.at(unit) else {
        return Ok(());
    };
    let sentence = sentence_of(program.units(), reason, unit, &insn, known_by(states, unit));
    put_told(alloc, out, written, program, states, unit, &insn, &sentence)
}

/// Appends a line for each unit that the verifier reached. `states` has what it knew at each, or `None` where no path
/// leads.
fn put_lines(
    alloc: Global,
    out: &mut String,
    written: &UnitTexts<'_>,
    program: &Program,
    states: &[Option<AbsState>],
    fault: &Option<VerifyError>,
) -> Result<(), AllocError>
    requires room { length states.now ≤ length (slots_of program.now) }
    requires few { length (slots_of program.now) ≤ 4096 }
    ensures { OnOk result (string_bytes out.new ≡ string_bytes out.old
        ++ known_lines (written_in written.now) program.now (slice_get states.now) fault.now 0 program.now) }
{
    let set = columns(alloc, program, states)?;
    let columns = set.as_slice();
    let surveyed = Surveyed {
        program,
        states,
        columns,
    };
    let insns = program.instructions();
    put_units(out, written, &surveyed, fault, insns)
}

/// Explains a program: what is known at each unit that the verifier reaches, what results from each instruction and, if
/// the program is rejected, why. `written` has the text of each unit in the source. Each line begins with a line break.
///
/// # Errors
///
/// `AllocError` if out of memory.
pub fn explanation_at(
    alloc: Global,
    program: &Program,
    written: &UnitTexts<'_>,
) -> Result<String, AllocError>
    ensures { IfOk result (λ text. string_bytes text ≡ explained_at (written_in written.now) program.now) }
{
    let survey = known_at_units(alloc, program)?;
    let mut out = String::with_capacity(alloc, 48 * program.units())?;
    let states = survey.states.as_slice();
    put_lines(alloc, &mut out, written, program, states, &survey.fault)?;
    put_refused(alloc, &mut out, written, program, states, survey.fault)?;
    Ok(out)
}

/// Explains a program as [`explanation_at`] does, but prints the instructions from the bytecode and without their
/// places in the source text.
///
/// # Errors
///
/// `AllocError` if out of memory.
pub fn explanation(alloc: Global, program: &Program) -> Result<String, AllocError>
    ensures { IfOk result (λ text. string_bytes text ≡ explained program.now) }
{
    let unwritten = UnitTexts {
        places: &[],
        statements: &[],
    };
    explanation_at(alloc, program, &unwritten)
}
