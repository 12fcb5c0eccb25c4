//! Tries edits of a rejected program, and writes the best one as a line such as `help: with ... before unit 7 this
//! passes`.
ghost use Rattle.std.specs.Prelude.{◌≡◌, ◌<◌, ◌≤◌, ◌++◌, string_bytes, IfOk, IfSome, OnOk};
ghost use Rattle.explain.specs.Helps.{masks_of, edits_of, accepted_or, better, best, quoted, mask_text, sum_text, edit_text, trial_text, told_help, help_on};

use crate::edit_choices::Choice;
use asm::{put, put_instruction, put_unsigned};
use insn::{Insn, Operand, Program, Reg};
use reaching::{Edit, Trial, operation_of, tried};
use std::alloc::{AllocError, Global};
use word::Operation;

/// An edit, and how far the verifier gets with it.
type Help = (Edit, Trial);

/// Returns the edit that inserts a 64-bit `and` of register `r` with `bits` before the instruction.
fn mask(r: Reg, bits: i32) -> Edit
    ensures { result ≡ Edit.Before Operation.And r (Operand.Immediate bits) }
{
    Edit::Before(Operation::And, r, Operand::Immediate(bits))
}

/// Returns the six edits that insert a mask of register `r` before the instruction, the widest mask first: 63, 31, 15,
/// 7, 3, 1.
fn masks_of(r: Reg) -> [Edit; 6]
    ensures { result ≡ masks_of r }
{
    [
        mask(r, 63),
        mask(r, 31),
        mask(r, 15),
        mask(r, 7),
        mask(r, 3),
        mask(r, 1),
    ]
}

/// Returns the edit of `rest` if the program is accepted with it, and otherwise `edit`, with which the verifier only
/// gets past the fault.
fn accepted_or(edit: Edit, rest: Option<Help>) -> Option<Help>
    ensures { result ≡ accepted_or edit rest }
{
    match rest {
        Some((other, Trial::Accepted)) => Some((other, Trial::Accepted)),
        _ => Some((edit, Trial::Passes)),
    }
}

/// Returns the better of `edit`, which had this trial, and the later edit in `rest`. One with which the program is
/// accepted is better than one with which the verifier only gets past the fault. Of equals the first is better. Returns
/// `None` if the verifier gets past the fault with neither.
fn better(edit: Edit, trial: Trial, rest: Option<Help>) -> Option<Help>
    ensures { result ≡ better edit trial rest }
{
    match trial {
        Trial::Accepted => Some((edit, Trial::Accepted)),
        Trial::Passes => accepted_or(edit, rest),
        Trial::Refused => rest,
    }
}

/// Tries the edits in order, and returns the first with which the program is accepted. If there is none, returns the
/// first with which the verifier gets past the fault, or `None` if there is none either. The fault is at `unit`, and
/// the edits are made at `place`.
fn best(
    alloc: Global,
    program: &Program,
    place: usize,
    unit: usize,
    edits: &[Edit],
) -> Result<Option<Help>, AllocError>
    requires place { place < 4096 }
    requires unit { unit < 4096 }
    ensures { IfOk result (λ help. help ≡ best program.now place unit edits.now) }
{
    let [edit, rest @ ..] = edits else {
        return Ok(None);
    };
    let trial = tried(
        alloc,
        program,
        edit,
        place,
        unit + usize::from(edit.grown()),
    )?;
    if let Trial::Accepted = trial {
        return Ok(Some((*edit, Trial::Accepted)));
    }
    let rest = best(alloc, program, place, unit, rest)?;
    Ok(better(*edit, trial, rest))
}

/// Tries the edits of a choice, and returns the best one, or `None` if the verifier gets past the fault with none. The
/// fault is at `unit`, and the edits are made at `place`.
fn best_of(
    alloc: Global,
    program: &Program,
    place: usize,
    unit: usize,
    wanted: Choice,
) -> Result<Option<Help>, AllocError>
    requires place { place < 4096 }
    requires unit { unit < 4096 }
    ensures { IfOk result (λ help. help ≡ best program.now place unit (edits_of wanted)) }
{
    match wanted {
        Choice::Mask(r) => best(alloc, program, place, unit, &masks_of(r)),
        Choice::One(edit) => best(alloc, program, place, unit, &[edit]),
        Choice::Either(edit, r) => best(alloc, program, place, unit, &either(edit, r)),
        Choice::Exchanged(number, pointer) => {
            best(alloc, program, place, unit, &exchanged(number, pointer))
        }
    }
}

/// Returns the edits to try for a register: `edit`, and then the six masks of `r`, the widest first.
fn either(edit: Edit, r: Reg) -> [Edit; 7]
    ensures { result ≡ edits_of (Choice.Either edit r) }
{
    [
        edit,
        mask(r, 63),
        mask(r, 31),
        mask(r, 15),
        mask(r, 7),
        mask(r, 3),
        mask(r, 1),
    ]
}

/// Returns the edits that add a number to a pointer: the sum only, the sum and a copy of it in the number's register,
/// and then the same with the number masked first.
fn exchanged(number: Reg, pointer: Reg) -> [Edit; 8]
    ensures { result ≡ edits_of (Choice.Exchanged number pointer) }
{
    [
        Edit::Instead(Operation::Add, pointer, Operand::Register(number)),
        Edit::Moved(None, number, pointer),
        Edit::Moved(Some(63), number, pointer),
        Edit::Moved(Some(31), number, pointer),
        Edit::Moved(Some(15), number, pointer),
        Edit::Moved(Some(7), number, pointer),
        Edit::Moved(Some(3), number, pointer),
        Edit::Moved(Some(1), number, pointer),
    ]
}

/// Appends an instruction in backquotes, such as `` `add r1, 8` ``.
#[tactic(auto, unfolding(crate::specs::Helps::quoted))]
fn put_quoted(out: &mut String, insn: &Insn) -> Result<(), AllocError>
    ensures { OnOk result (string_bytes out.new ≡ string_bytes out.old ++ quoted insn.now) }
{
    put(out, "`")?;
    put_instruction(out, insn)?;
    put(out, "`")
}

/// Appends the instruction that masks a number, in backquotes, and a comma. Appends nothing if there is no mask.
fn put_mask(out: &mut String, mask: Option<i32>, number: Reg) -> Result<(), AllocError>
    ensures { OnOk result (string_bytes out.new ≡ string_bytes out.old ++ mask_text mask number) }
{
    let Some(mask) = mask else {
        return Ok(());
    };
    put_quoted(
        out,
        &operation_of(Operation::And, number, Operand::Immediate(mask)),
    )?;
    put(out, ", ")
}

/// Appends two instructions in backquotes: the sum of a number and a pointer, in the pointer's register, and a copy of
/// the sum in the number's register.
#[tactic(auto, unfolding(crate::specs::Helps::sum_text))]
fn put_sum(out: &mut String, number: Reg, pointer: Reg) -> Result<(), AllocError>
    ensures { OnOk result (string_bytes out.new ≡ string_bytes out.old ++ sum_text number pointer) }
{
    put_quoted(
        out,
        &operation_of(Operation::Add, pointer, Operand::Register(number)),
    )?;
    put(out, " and ")?;
    put_quoted(
        out,
        &operation_of(Operation::Move, number, Operand::Register(pointer)),
    )
}

/// Appends the instructions that add a number to a pointer, with the number masked first if there is a mask, and the
/// words `in place of`.
fn put_moved(
    out: &mut String,
    mask: Option<i32>,
    number: Reg,
    pointer: Reg,
) -> Result<(), AllocError>
    ensures { OnOk result (string_bytes out.new ≡ string_bytes out.old ++ edit_text (Edit.Moved mask number pointer)) }
{
    put_mask(out, mask, number)?;
    put_sum(out, number, pointer)?;
    put(out, " in place of")
}

/// Appends the instructions of an edit, and whether they are inserted before a unit or replace it. The unit's number
/// must follow.
fn put_edit(out: &mut String, edit: &Edit) -> Result<(), AllocError>
    ensures { OnOk result (string_bytes out.new ≡ string_bytes out.old ++ edit_text edit.now) }
{
    match edit {
        Edit::Before(operation, dst, operand) => {
            put_quoted(out, &operation_of(*operation, *dst, *operand))?;
            put(out, " before")
        }
        Edit::Instead(operation, dst, operand) => {
            put_quoted(out, &operation_of(*operation, *dst, *operand))?;
            put(out, " in place of")
        }
        Edit::Moved(mask, number, pointer) => put_moved(out, *mask, *number, *pointer),
    }
}

/// Returns the end of a help line, which says how far the verifier gets with the edit. It is empty if the verifier does
/// not get past the fault.
fn trial_text(trial: Trial) -> &'static str
    ensures { result.now ≡ trial_text trial }
{
    match trial {
        Trial::Accepted => " the program is accepted",
        Trial::Passes => " this passes",
        Trial::Refused => "",
    }
}

/// Appends a line with the edit that helps at unit `place`, and how far the verifier gets with it. Appends nothing if
/// no edit helps.
fn put_help_text(out: &mut String, place: usize, help: Option<Help>) -> Result<(), AllocError>
    ensures { OnOk result (string_bytes out.new ≡ string_bytes out.old ++ told_help place help) }
{
    let Some((edit, trial)) = help else {
        return Ok(());
    };
    put(out, "\nhelp: with ")?;
    put_edit(out, &edit)?;
    put(out, " unit ")?;
    put_unsigned(out, place as u64)?;
    put(out, trial_text(trial))
}

/// Tries the chosen edits of a program that is rejected at `unit`, and appends a line with the best one. Appends
/// nothing if no edit helps.
pub(crate) fn put_help(
    alloc: Global,
    out: &mut String,
    program: &Program,
    unit: usize,
    wanted: Option<(usize, Choice)>,
) -> Result<(), AllocError>
    requires unit { unit < 4096 }
    requires place { IfSome wanted (λ want. want.0 ≤ unit) }
    ensures { OnOk result (string_bytes out.new ≡ string_bytes out.old ++ help_on program.now unit wanted) }
{
    let Some((place, wanted)) = wanted else {
        return Ok(());
    };
    let help = best_of(alloc, program, place, unit, wanted)?;
    put_help_text(out, place, help)
}
