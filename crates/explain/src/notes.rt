//! Writes the notes on a rejection: where its subject, the register or stack cell that is at fault, got its value.
ghost use Rattle.std.specs.Prelude.{◌≡◌, ◌<◌, ◌≤◌, ◌++◌, length, option_map, slice_get, string_bytes, OnOk};
ghost use Rattle.explain.specs.Notes.{of_misuse, of_access, of_misfit, subject_of, found_text, noted_text, rule_behind, set_note, noted_if, passing_note, note_by, note_text, entry_note, notes_below, origin_notes, notes_on, number_notes};
ghost use Rattle.explain.specs.Units.{written_in};
ghost use Rattle.insn.specs.Program.{slots_of};

use crate::cells::put_run;
use crate::origins::origin_of;
use crate::refusal_text::put_named;
use crate::rules::{Passing, passed_by, put_tells, rule_text};
use crate::sentence::{AccessMisuse, Misfit, RegisterMisuse, Sentence};
use crate::units::{UnitTexts, put_insn_at};
use asm::put;
use helper::reads::numbered;
use insn::{Insn, Program, Reg};
use reaching::{Subject, UnitMark, held_at, known_by, left_by, marks};
use std::alloc::{AllocError, Global};
use verify::AbsState;

/// Returns the register that a misuse is about, or `None` if it is about no register's value.
fn of_misuse(misuse: RegisterMisuse) -> Option<Subject>
    ensures { result ≡ of_misuse misuse }
{
    match misuse {
        RegisterMisuse::Frame => None,
        RegisterMisuse::Exit(_) => Some(Subject::Register(numbered(0))),
        RegisterMisuse::Unset(r)
        | RegisterMisuse::Far(r, _, _)
        | RegisterMisuse::EitherSign(r, _)
        | RegisterMisuse::Computed(r, _)
        | RegisterMisuse::Compared(r, _)
        | RegisterMisuse::Stored(r, _, _, _)
        | RegisterMisuse::NoBase(r, _) => Some(Subject::Register(r)),
    }
}

/// Returns the register or stack cell that a misuse of memory is about. The result is never `None`.
fn of_access(access: AccessMisuse) -> Option<Subject>
    ensures { result ≡ of_access access }
{
    match access {
        AccessMisuse::Empty(_, _, cell) => Some(Subject::Cell(cell)),
        AccessMisuse::Outside(r, _, _) | AccessMisuse::Context(r, _) => Some(Subject::Register(r)),
    }
}

/// Returns the register that a rejected call is about, or `None` if it is about no single register.
fn of_misfit(misfit: Misfit) -> Option<Subject>
    ensures { result ≡ of_misfit misfit }
{
    match misfit {
        Misfit::Above(_, r, _, _) | Misfit::NoPointer(_, r, _) => Some(Subject::Register(r)),
        Misfit::Helper(_) | Misfit::Board(_) => None,
    }
}

/// Returns the subject of a sentence: the register or stack cell that it is about. Returns `None` if it has none.
pub(crate) fn subject_of(sentence: &Sentence) -> Option<Subject>
    ensures { result ≡ subject_of sentence.now }
{
    match *sentence {
        Sentence::Structure(_) => None,
        Sentence::Register(misuse) => of_misuse(misuse),
        Sentence::Memory(access) => of_access(access),
        Sentence::Call(misfit) => of_misfit(misfit),
    }
}

/// Appends the name of the subject, a register or stack cell, and what is known of it.
#[inline(never)]
fn put_found(out: &mut String, asked: &Subject, state: &AbsState) -> Result<(), AllocError>
    ensures { OnOk result (string_bytes out.new ≡ string_bytes out.old ++ found_text asked.now state.now) }
{
    match asked {
        Subject::Register(r) => put_named(out, *r, state.known(*r)),
        Subject::Cell(cell) => {
            let place = usize::from(*cell);
            put_run(out, place, place + 1, held_at(&state.stack, place))
        }
    }
}

/// Appends a line break, `note: `, the number of a unit, its place in the source text, and its instruction.
fn put_noted(
    out: &mut String,
    written: &UnitTexts<'_>,
    unit: usize,
    insn: &Insn,
) -> Result<(), AllocError>
    ensures { OnOk result (string_bytes out.new ≡ string_bytes out.old
        ++ noted_text (written_in written.now) unit insn.now) }
{
    put(out, "\nnote: ")?;
    put_insn_at(out, written, unit, insn)
}

/// Appends the verifier's rule by which little is known of the result of an instruction, such as `: after a call r1 to
/// r5 are unset`. Appends nothing for a stack cell, or if there is no such rule. `left` is the state after the
/// instruction.
fn put_rule(
    out: &mut String,
    asked: &Subject,
    insn: &Insn,
    left: &AbsState,
) -> Result<(), AllocError>
    ensures { OnOk result (string_bytes out.new ≡ string_bytes out.old ++ rule_behind asked.now insn.now left.now) }
{
    match asked {
        Subject::Register(r) => put(out, rule_text(insn, left.known(*r))),
        Subject::Cell(_) => Ok(()),
    }
}

/// Appends a note on the instruction at `unit`, which set the subject, a register or stack cell: what was known of the
/// subject after it, and the verifier's rule if little was known. `state` is the state before the instruction.
fn put_set(
    out: &mut String,
    written: &UnitTexts<'_>,
    asked: &Subject,
    unit: usize,
    insn: &Insn,
    state: &AbsState,
) -> Result<(), AllocError>
    ensures { OnOk result (string_bytes out.new ≡ string_bytes out.old
        ++ set_note (written_in written.now) asked.now unit insn.now state.now) }
{
    let left = left_by(insn, state);
    put_noted(out, written, unit, insn)?;
    put(out, " -> ")?;
    put_found(out, asked, &left)?;
    put_rule(out, asked, insn, &left)
}

/// Appends a note on the instruction at `unit`: it says nothing about the register in question, for the reason `tells`.
/// Appends nothing if there is no reason.
fn put_if(
    out: &mut String,
    written: &UnitTexts<'_>,
    unit: usize,
    insn: &Insn,
    tells: Option<Passing>,
) -> Result<(), AllocError>
    ensures { OnOk result (string_bytes out.new ≡ string_bytes out.old
        ++ noted_if (written_in written.now) unit insn.now tells) }
{
    let Some(tells) = tells else {
        return Ok(());
    };
    put_noted(out, written, unit, insn)?;
    put_tells(out, tells)
}

/// Appends a note on the instruction at `unit`, if it tests or copies the subject and the verifier learns nothing about
/// the subject there. Appends nothing if the subject is a stack cell.
fn put_passing(
    out: &mut String,
    written: &UnitTexts<'_>,
    asked: &Subject,
    unit: usize,
    insn: &Insn,
    state: &AbsState,
) -> Result<(), AllocError>
    ensures { OnOk result (string_bytes out.new ≡ string_bytes out.old
        ++ passing_note (written_in written.now) asked.now unit insn.now state.now) }
{
    match asked {
        Subject::Register(r) => put_if(
            out,
            written,
            unit,
            insn,
            passed_by(*r, insn, state.known(*r)),
        ),
        Subject::Cell(_) => Ok(()),
    }
}

/// Appends a note on the instruction at `unit`, if it is marked as setting the subject, or as leaving it unchanged on a
/// path to the rejected instruction. The subject is a register or stack cell.
fn put_note(
    out: &mut String,
    written: &UnitTexts<'_>,
    asked: &Subject,
    unit: usize,
    insn: &Insn,
    state: &AbsState,
    mark: Option<UnitMark>,
) -> Result<(), AllocError>
    ensures { OnOk result (string_bytes out.new ≡ string_bytes out.old
        ++ note_by (written_in written.now) asked.now unit insn.now state.now mark) }
{
    match mark {
        Some(UnitMark::Sets) => put_set(out, written, asked, unit, insn, state),
        Some(UnitMark::Open) => put_passing(out, written, asked, unit, insn, state),
        Some(UnitMark::Closed) | None => Ok(()),
    }
}

/// Appends a note on the instruction at `unit`, as its mark says. Appends nothing if no instruction starts there, or no
/// path leads to it.
fn put_note_at(
    out: &mut String,
    written: &UnitTexts<'_>,
    asked: &Subject,
    unit: usize,
    insn: Option<Insn>,
    state: Option<&AbsState>,
    mark: Option<UnitMark>,
) -> Result<(), AllocError>
    ensures { OnOk result (string_bytes out.new ≡ string_bytes out.old
        ++ note_text (written_in written.now) asked.now unit insn (option_map (λ a. a.now) state.entry) mark) }
{
    let Some(insn) = insn else {
        return Ok(());
    };
    let Some(state) = state else {
        return Ok(());
    };
    put_note(out, written, asked, unit, &insn, state, mark)
}

/// Appends a note on what is known of the subject at the program's entry. Appends nothing unless the entry is marked as
/// open: a path leads from it to the rejected instruction on which the subject is not set.
fn put_entry(
    out: &mut String,
    asked: &Subject,
    state: Option<&AbsState>,
    mark: Option<UnitMark>,
) -> Result<(), AllocError>
    ensures { OnOk result (string_bytes out.new ≡ string_bytes out.old
        ++ entry_note asked.now (option_map (λ a. a.now) state.entry) mark) }
{
    let Some(state) = state else {
        return Ok(());
    };
    let Some(UnitMark::Open) = mark else {
        return Ok(());
    };
    put(out, "\nnote: at the entry ")?;
    put_found(out, asked, state)
}

/// Returns the mark of a unit, or `None` if it has none.
fn mark_at(marks: &[UnitMark], unit: usize) -> Option<UnitMark>
    ensures { result ≡ slice_get marks.now unit }
{
    marks.get(unit).copied()
}

/// Appends the notes on the entry and on the units below `unit`, ascending.
fn put_notes_below(
    out: &mut String,
    written: &UnitTexts<'_>,
    program: &Program,
    states: &[Option<AbsState>],
    asked: &Subject,
    marks: &[UnitMark],
    unit: usize,
) -> Result<(), AllocError>
    ensures { OnOk result (string_bytes out.new ≡ string_bytes out.old
        ++ notes_below (written_in written.now) program.now (slice_get states.now) asked.now marks.now unit) }
{
    put_entry(out, asked, known_by(states, 0), mark_at(marks, 0))?;
    for place in 0..unit {
        let insn = program.at(place);
        let state = known_by(states, place);
        put_note_at(
            out,
            written,
            asked,
            place,
            insn,
            state,
            mark_at(marks, place),
        )?;
    }
    Ok(())
}

/// Appends the notes on the registers from which the subject was computed, at most `most` steps back. The earliest step
/// comes first.
fn put_origin_notes(
    alloc: Global,
    out: &mut String,
    written: &UnitTexts<'_>,
    program: &Program,
    states: &[Option<AbsState>],
    marked: &[UnitMark],
    unit: usize,
    most: usize,
) -> Result<(), AllocError>
    requires { unit < length (slots_of program.now) }
    ensures { OnOk result (string_bytes out.new ≡ string_bytes out.old
        ++ origin_notes most (written_in written.now) program.now (slice_get states.now) marked.now unit) }
{
    if most == 0 {
        return Ok(());
    }
    let Some(origin) = origin_of(program, states, marked, unit) else {
        return Ok(());
    };
    let asked = Subject::Register(origin.0);
    let deeper = marks(alloc, program, states, &asked, origin.1)?;
    let shown = deeper.as_slice();
    put_origin_notes(
        alloc,
        out,
        written,
        program,
        states,
        shown,
        origin.1,
        most - 1,
    )?;
    put_notes_below(out, written, program, states, &asked, shown, origin.1)
}

/// Appends all notes on the subject of a rejection at `unit`. Those on the registers from which it was computed, at
/// most 8 steps back, come first.
pub(crate) fn put_notes_on(
    alloc: Global,
    out: &mut String,
    written: &UnitTexts<'_>,
    program: &Program,
    states: &[Option<AbsState>],
    asked: &Subject,
    marked: &[UnitMark],
    unit: usize,
) -> Result<(), AllocError>
    requires { unit < length (slots_of program.now) }
    ensures { OnOk result (string_bytes out.new ≡ string_bytes out.old
        ++ notes_on (written_in written.now) program.now (slice_get states.now) asked.now marked.now unit) }
{
    put_origin_notes(alloc, out, written, program, states, marked, unit, 8)?;
    put_notes_below(out, written, program, states, asked, marked, unit)
}

/// Appends all notes on the number in a register, for a rejection at `unit`. Appends nothing if there is no register.
pub(crate) fn put_number_notes(
    alloc: Global,
    out: &mut String,
    written: &UnitTexts<'_>,
    program: &Program,
    states: &[Option<AbsState>],
    unit: usize,
    number: Option<Reg>,
) -> Result<(), AllocError>
    requires { unit < length (slots_of program.now) }
    ensures { OnOk result (string_bytes out.new ≡ string_bytes out.old
        ++ number_notes (written_in written.now) program.now (slice_get states.now) unit number) }
{
    let Some(r) = number else {
        return Ok(());
    };
    let asked = Subject::Register(r);
    let marked = marks(alloc, program, states, &asked, unit)?;
    put_notes_on(
        alloc,
        out,
        written,
        program,
        states,
        &asked,
        marked.as_slice(),
        unit,
    )
}
