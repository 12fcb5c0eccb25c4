//! Lists the slips in the round of a letter: the calls of a traitor's program that should send orders, but have no
//! effect.
ghost use Rattle.std.specs.Prelude.{◌≡◌, ◌==◌, ℕ, List, [], None, IfNone, IfOk, IfSome, length};
ghost use Rattle.insn.specs.declared.insn.Insn.{Insn};
ghost use Rattle.machine.specs.Advance.{IsAskOfRun, IsOfRun};
ghost use Rattle.semantics.specs.Call.{words_of};
ghost use Rattle.semantics.specs.Outbox.{empty_outbox};
ghost use Rattle.semantics.specs.Replies.{words_in};
ghost use Rattle.semantics.specs.State.{entry};
ghost use Rattle.round.specs.Runs.{AreFitting};
ghost use Rattle.trial.specs.Noting.{IsAnswered};
ghost use Rattle.trial.specs.Slips.{by_replies, letter_slips, slips_from};

use crate::held_chains::HeldChains;
use crate::helper_call::HelperCall;
use crate::noted_step::step_noted;
use crate::turn::Turn;
use board::Access;
use machine::Machine;
use mem::Context;
use outbox::Outbox;
use round::Letter;
use semantics::{Reply, Request};
use std::alloc::{AllocError, Global};
use verify::Verified;

/// Returns the slips in the round of a letter, in the order in which they were made: the calls that should send orders,
/// but have no effect. The traitor's program is run again with the replies in the letter. For a loyal general's letter
/// there are none.
///
/// # Errors
///
/// Fails with `AllocError` if there is no memory for the outbox or the calls.
#[tactic(auto, unfolding(crate::specs::Slips::letter_slips))]
pub fn letter_slips(alloc: Global, letter: &Letter) -> Result<Vec<HelperCall>, AllocError>
    ensures { IfOk result (λ calls. calls.items ≡ letter_slips letter.now) }
{
    letter.recall();
    let Some(program) = letter.program.program() else {
        return Ok(Vec::new(alloc));
    };
    let held = HeldChains::told_in(alloc, letter.context.as_slice())?;
    let outbox = held.outbox(alloc, letter.outbox.shape())?;
    let context = Context::new(letter.context.as_slice());
    let transcript = letter.transcript.as_slice();
    replayed_slips(alloc, program, &context, outbox, letter.steps, transcript)
}

/// Runs a program again for at most `steps` steps, with the replies in `transcript`, and returns its slips.
fn replayed_slips(
    alloc: Global,
    verified: &Verified,
    context: &Context,
    outbox: Outbox,
    steps: u32,
    transcript: &[Access],
) -> Result<Vec<HelperCall>, AllocError>
    requires empty { outbox.rows ≡ empty_outbox outbox.relay }
    requires unentered { outbox.entries ≡ [] }
    requires fitting { AreFitting transcript.now }
    ensures { IfOk result (λ calls. calls.items ≡ slips_from by_replies verified.now context.now outbox.relay steps
        transcript.now (entry (empty_outbox outbox.relay))) }
{
    let mut calls = Vec::new(alloc);
    let mut activation = Machine::start(verified, context, outbox);
    let mut rest = transcript;
    while activation.steps() < steps {
        match step_noted(&mut calls, verified, context, &mut activation)? {
            Turn::Onward => {}
            Turn::Asked(request) => {
                let Some(further) = answered(&mut activation, &request, rest) else {
                    return Ok(calls);
                };
                rest = further;
            }
            Turn::Ended => return Ok(calls),
        }
    }
    Ok(calls)
}

/// Resumes the activation with the first of these replies, and returns the others. Returns `None`, and changes nothing, if
/// there is no reply, or if it has another length than the request asks for.
#[tactic(auto, using(crate::proofs::SlipLemmas::replies_answer, crate::proofs::SlipLemmas::replies_none, crate::proofs::SlipLemmas::fits_too))]
fn answered<'a>(
    activation: &mut Machine,
    request: &Request,
    replies: &'a [Access],
) -> Option<&'a [Access]>
    requires { AreFitting replies.now }
    ensures relay { activation.new.relay ≡ activation.old.relay }
    ensures some { IfSome result (λ rest. IsAnswered replies.now request.now activation.old.state rest.now
        activation.new.state) }
    ensures none { IfNone result (by_replies replies.now request.now ≡ None) }
    ensures fitting { IfSome result (λ rest. AreFitting rest.now) }
    ensures of_run { IfSome result (λ rest. (program : List Insn) (context : List ℕ) →
        IsAskOfRun program context request.now activation.old → IsOfRun program context activation.new) }
{
    let [access, rest @ ..] = replies else {
        return None;
    };
    let reply = access.reply();
    if !has_its_length(request, reply) {
        return None;
    }
    activation.resume(request, reply);
    Some(rest)
}

/// Checks whether a reply has as many words as the request asks for.
fn has_its_length(request: &Request, reply: &Reply) -> bool
    ensures { result ≡ (length (words_in reply.now) == words_of request.now) }
{
    let count = match reply {
        Reply::Word(_) => 1,
        Reply::Words(words) => words.as_slice().len(),
    };
    match request {
        Request::Copy { span } => count == span.count(),
        Request::Get { .. } | Request::Swap { .. } | Request::Add { .. } | Request::Cas { .. } => {
            count == 1
        }
    }
}
