//! The verifier's forward pass. It visits the units of a program in order, checks each instruction, and records what is
//! known at the units to which it leads.
ghost use Rattle.std.specs.Prelude.{ℕ, ◌≡◌, ◌≢◌, ◌<◌, ◌≤◌, ◌+◌, ◌^◌, pos, ◌<ℤ◌, ◌+ℤ◌, length, IfErr, IfOk, Ok, Result, if◌then◌else◌, Some, None};
ghost use Rattle.std.specs.Result.{result_err};
ghost use Rattle.verify.specs.Instructions.{IsStraight, reason_of};
ghost use Rattle.verify.specs.Transfer.{edge_to};
ghost use Rattle.verify.specs.Judgement.{KnownSoFar, reached_at, along, along_all, followed, passed_at, passed_to};
ghost use Rattle.verify.specs.Passes.{Does, Comes, Answers};
ghost use Rattle.insn.specs.Program.{slots_of, instruction_at};
ghost use Rattle.verify.specs.Forward.{IsForward};
ghost use Rattle.verify.specs.Branches.{branch_of};
ghost use Rattle.verify.specs.declared.error.VerifyError.TheVariants.{Memory};
ghost use Rattle.verify.specs.Kept.{EdgesInside, EdgesForward, AtHand, unboxed};
ghost use Rattle.verify.specs.Ready.{IsMade, AreMade, ready_at};

use crate::comparison::Comparison;
use crate::error::VerifyError;
use crate::pending_states::{Pending, boxed, come, empty, flow, put_back, second, take_next};
use crate::ready_form::{Change, Other, Ready, blank_codes, put_ready};
use crate::state::AbsState;
use crate::structure::forward_target;
use crate::{branches, registers, steps};
use insn::{Insn, Program};
use std::alloc::{AllocError, Global};

/// Checks an instruction that always continues with the next one, and returns what is known at the next unit, or
/// `None` if no path leads there. The result of a wide instruction, which has two units, is kept in `pending` for the
/// unit after both. Fails with the instruction's fault.
fn pass_straight(
    unit: usize,
    insn: &Insn,
    mut state: Box<AbsState>,
    pending: &mut Pending,
) -> Result<Option<Box<AbsState>>, VerifyError>
    requires straight { IsStraight insn.now }
    requires bound { unit < 4096 }
    requires edges { EdgesInside insn.now unit (length pending.old.items) }
    ensures comes { Comes (followed unit insn.now state.value pending.old.items) (unit + 1) result pending.new.items }
    ensures memory { IfErr result (λ e. e ≢ Memory) }
{
    if let Err(reason) = steps::straight(&mut state, insn) {
        return Err(VerifyError::At(reason, unit));
    }
    if insn.units() == 1 {
        return Ok(Some(come(pending, unit + 1, state)));
    }
    flow(pending, unit + insn.units() as usize, state);
    Ok(take_next(pending, unit + 1))
}

/// Records in `pending` that a jump leads from `unit` by `distance` units with this state.
fn pass_jump(unit: usize, distance: i32, state: Box<AbsState>, pending: &mut Pending)
    requires bound { unit < 4096 }
    requires forward { pos unit <ℤ (pos (unit + 1) +ℤ distance) }
    requires edges { EdgesInside (Insn.LongJump distance) unit (length pending.old.items) }
    ensures { pending.new.items ≡ along (pos (unit + 1) +ℤ distance, state.value) pending.old.items }
{
    flow(pending, forward_target(unit, distance), state);
}

/// Records in `pending` that a conditional jump leads to `unit` with this state. Does nothing if `followed` is false:
/// this case is not possible.
fn pass_edge(unit: usize, followed: bool, state: Box<AbsState>, pending: &mut Pending)
    requires { unit < length pending.old.items }
    ensures { pending.new.items
        ≡ along_all (edge_to (pos unit) (if followed then Some state.value else None)) pending.old.items }
{
    if followed {
        flow(pending, unit, state);
    }
}

/// Checks a conditional jump, and records in `pending` the narrowed states with which it may lead to its target and to
/// the next unit. Fails with `Unset` or `PointerUse` at the unit, or with `Memory`.
fn pass_branch(
    alloc: Global,
    unit: usize,
    compared: &Comparison,
    distance: i16,
    mut state: Box<AbsState>,
    pending: &mut Pending,
) -> Result<(), VerifyError>
    requires bound { unit < 4096 }
    requires forward { pos unit <ℤ (pos (unit + 1) +ℤ distance) }
    requires edges { EdgesInside (branch_of compared.now distance) unit (length pending.old.items) }
    ensures { Does (followed unit
        (branch_of compared.now distance) state.value pending.old.items) result pending.new.items }
{
    if let Err(reason) = steps::compare(&state, compared) {
        return Err(VerifyError::At(reason, unit));
    }
    let Ok(mut other) = second(alloc, pending, &state) else {
        return Err(VerifyError::Memory);
    };
    let followed = branches::refine(&mut state, &mut other, compared);
    pass_edge(unit + 1, followed.not_taken, other, pending);
    let target = forward_target(unit, i32::from(distance));
    pass_edge(target, followed.taken, state, pending);
    Ok(())
}

/// Checks an exit: r0 must be a number. Fails with `Unset` or `ExitPointer` at the unit.
fn pass_exit(unit: usize, state: Box<AbsState>) -> Result<(), VerifyError>
    ensures does { (reached : KnownSoFar) → Does (followed unit Insn.Exit state.value reached) result reached }
    ensures memory { IfErr result (λ e. e ≢ Memory) }
{
    if let Err(reason) = steps::exit(&state) {
        return Err(VerifyError::At(reason, unit));
    }
    Ok(())
}

/// Takes what is kept in `pending` for unit `next` and returns it, or `None` if no path leads there. If `done` is a
/// fault, fails with it.
#[inline(always)]
fn go_on(
    next: usize,
    done: Result<(), VerifyError>,
    pending: &mut Pending,
) -> Result<Option<Box<AbsState>>, VerifyError>
    ensures { (wanted : Result KnownSoFar VerifyError) → Does wanted done pending.old.items →
        Comes wanted next result pending.new.items }
{
    match done {
        Ok(()) => Ok(take_next(pending, next)),
        Err(fault) => Err(fault),
    }
}

/// Checks the instruction at `unit`, where `state` is known, and returns what is known at the next unit, or `None` if
/// no path leads there. Fails with the instruction's fault, or with `Memory`.
#[inline(always)]
fn pass_state(
    alloc: Global,
    unit: usize,
    insn: &Insn,
    state: Box<AbsState>,
    pending: &mut Pending,
) -> Result<Option<Box<AbsState>>, VerifyError>
    requires bound { unit < 4096 }
    requires forward { EdgesForward insn.now unit }
    requires inside { EdgesInside insn.now unit (length pending.old.items) }
    ensures { Comes (followed unit insn.now state.value pending.old.items) (unit + 1) result pending.new.items }
{
    match insn {
        Insn::Jump { distance } => {
            pass_jump(unit, i32::from(*distance), state, pending);
            go_on(unit + 1, Ok(()), pending)
        }
        Insn::LongJump { distance } => {
            pass_jump(unit, *distance, state, pending);
            go_on(unit + 1, Ok(()), pending)
        }
        Insn::Branch {
            width,
            condition,
            dst,
            operand,
            distance,
        } => {
            let compared = Comparison {
                width: *width,
                condition: *condition,
                dst: *dst,
                operand: *operand,
            };
            let done = pass_branch(alloc, unit, &compared, *distance, state, pending);
            go_on(unit + 1, done, pending)
        }
        Insn::Exit => go_on(unit + 1, pass_exit(unit, state), pending),
        _ => pass_straight(unit, insn, state, pending),
    }
}

/// Checks the instruction at `unit`, writes its ready code (the form for the machine), and returns what is known at the
/// next unit. `hand` is what is known at this one. If it is `None`, no path leads here, and nothing is checked. The
/// second unit of a wide instruction is not checked either. Fails with the instruction's fault, or with `Memory`.
#[inline(always)]
fn pass_unit(
    alloc: Global,
    program: &Program,
    unit: usize,
    hand: Option<Box<AbsState>>,
    pending: &mut Pending,
    codes: &mut Vec<Ready>,
) -> Result<Option<Box<AbsState>>, VerifyError>
    requires forward { IsForward program.now }
    requires unit { unit < length (slots_of program.now) }
    requires fits { unit + 1 < 2 ^ 64 }
    requires room { length pending.old.items ≡ length (slots_of program.now) }
    requires codes { length codes.old.items ≡ length (slots_of program.now) }
    ensures comes { (reached : KnownSoFar) → AtHand reached unit hand pending.old.items →
        Comes (passed_at unit (instruction_at program.now unit) (reached_at reached unit) reached) (unit + 1) result
        pending.new.items }
    ensures made { IsMade (instruction_at program.now unit) (unboxed hand) (ready_at codes.new.items unit) }
    ensures others { (other : ℕ) → other ≢ unit → ready_at codes.new.items other ≡ ready_at codes.old.items other }
    ensures long { length codes.new.items ≡ length codes.old.items }
{
    // This line names the types inside a code, because the borrow checker's proof finds only a type that is named.
    let _named: Option<(Change, Other)> = None;
    let Some(state) = hand else {
        return Ok(take_next(pending, unit + 1));
    };
    let Some(insn) = program.at(unit) else {
        put_back(pending, unit, Some(state));
        return Ok(take_next(pending, unit + 1));
    };
    put_ready(&mut codes[unit], &insn, &state);
    pass_state(alloc, unit, &insn, state, pending)
}

/// Checks the units from `first` up to but not including `end` in order, and writes their ready codes (the form for the
/// machine). Fails with the first fault, or with `Memory`. The function is not inlined, so that its long code exists
/// only once.
#[inline(never)]
pub fn pass_units(
    alloc: Global,
    program: &Program,
    first: usize,
    end: usize,
    pending: &mut Pending,
    codes: &mut Vec<Ready>,
) -> Result<(), VerifyError>
    requires forward { IsForward program.now }
    requires ordered { first ≤ end }
    requires within { end ≤ length (slots_of program.now) }
    requires room { length pending.old.items ≡ length (slots_of program.now) }
    requires codes { length codes.old.items ≡ length (slots_of program.now) }
    requires comes { passed_to program.now first ≡ Ok pending.old.items }
    ensures passed { IfOk result (λ _. passed_to program.now end ≡ Ok pending.new.items) }
    ensures answers { Answers (result_err (passed_to program.now end)) result }
    ensures made { IfOk result (λ _. AreMade program.now codes.new.items first end) }
    ensures long { length codes.new.items ≡ length codes.old.items }
{
    let _named: Option<(Change, Other)> = None;
    let mut hand = take_next(pending, first);
    for unit in first..end {
        hand = pass_unit(alloc, program, unit, hand, pending, codes)?;
    }
    put_back(pending, end, hand);
    Ok(())
}

/// Returns the pending states at the beginning of the pass: what is known at the entry, for the first unit.
pub fn opened(alloc: Global, program: &Program) -> Result<Pending, AllocError>
    ensures { IfOk result (λ pending. passed_to program.now 0 ≡ Ok pending.items) }
{
    let mut pending = empty(alloc, program.units())?;
    flow(&mut pending, 0, boxed(alloc, registers::at_entry())?);
    Ok(pending)
}

/// Runs the forward pass over a program whose jumps all lead forward, and writes the ready codes of its units (the form
/// for the machine). Fails with the first fault, or with `Memory`.
pub fn pass(alloc: Global, program: &Program, codes: &mut Vec<Ready>) -> Result<(), VerifyError>
    requires { IsForward program.now }
    ensures answers { Answers (result_err (passed_to program.now (length (slots_of program.now)))) result }
    ensures made { IfOk result (λ _. AreMade program.now codes.new.items 0 (length (slots_of program.now))) }
    ensures long { IfOk result (λ _. length codes.new.items ≡ length (slots_of program.now)) }
{
    let _named: Option<(Change, Other)> = None;
    let mut pending = opened(alloc, program)?;
    *codes = blank_codes(alloc, program.units())?;
    pass_units(alloc, program, 0, program.units(), &mut pending, codes)
}
