//! Finds what is missing at a rejected instruction, by the verifier's reason.
ghost use Rattle.std.specs.Prelude.{◌≡◌, IfSome};
ghost use Rattle.explain.specs.Shortfalls.{shortfall, reached, outside, empty_cell, context_written};

use crate::accesses::{context_written, empty_cell, outside};
use crate::misfits::{call_misfit, no_helper};
use crate::misuse::{first_unset, pointer_misuse};
use crate::reach::reach_of;
use crate::sentence::{RegisterMisuse, Sentence};
use helper::reads::{numbered, read_by};
use insn::Insn;
use verify::{AbsState, Reason};

/// Returns the sentence that says that an instruction accesses bytes outside a region. It is not checked that it does.
/// Returns `None` if it makes no access by a pointer.
fn outside_of(insn: &Insn, state: &AbsState) -> Option<Sentence>
    ensures { result ≡ reached outside insn.now state.now.registers }
{
    let reach = reach_of(insn, state)?;
    outside(reach, state.known(reach.base))
}

/// Returns the sentence that says that an instruction reads a stack cell that may hold no byte, or `None` if it does
/// not.
fn empty_of(insn: &Insn, state: &AbsState) -> Option<Sentence>
    ensures { result ≡ reached (empty_cell state.now.stack) insn.now state.now.registers }
{
    let reach = reach_of(insn, state)?;
    empty_cell(&state.stack, reach, state.known(reach.base))
}

/// Returns the sentence that says that an instruction stores to the context. It is not checked that it does. Returns
/// `None` if it makes no access.
fn written_of(insn: &Insn, state: &AbsState) -> Option<Sentence>
    ensures { result ≡ reached context_written insn.now state.now.registers }
{
    let reach = reach_of(insn, state)?;
    context_written(reach, state.known(reach.base))
}

/// Returns the sentence that explains the verifier's reason at a rejected instruction, from what is known there.
/// Returns `None` if the reason does not fit the instruction.
pub(crate) fn shortfall(reason: Reason, insn: &Insn, state: &AbsState) -> Option<Sentence>
    ensures { result ≡ shortfall reason insn.now state.now }
{
    match reason {
        Reason::Unset => first_unset(state, read_by(insn)),
        Reason::FrameWrite => Some(Sentence::Register(RegisterMisuse::Frame)),
        Reason::PointerUse => pointer_misuse(insn, state),
        Reason::Bounds => outside_of(insn, state),
        Reason::StackUnset => empty_of(insn, state),
        Reason::ContextWrite => written_of(insn, state),
        Reason::Helper => no_helper(insn),
        Reason::Argument => call_misfit(insn, state),
        Reason::ExitPointer => {
            let value = state.known(numbered(0));
            Some(Sentence::Register(RegisterMisuse::Exit(value)))
        }
        _ => None,
    }
}
