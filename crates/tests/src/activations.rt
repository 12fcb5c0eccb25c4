//! Tests of activations: one run of a traitor's program, in which each request to the board is either answered once or
//! cancelled.
ghost use Rattle.std.specs.Prelude.{IfSome};
ghost use Rattle.machine.specs.Advance.{IsAskOfRun, IsOfRun};

use asm::assemble;
use board::Board;
use machine::{Activation, Ended, Pause, Waiting};
use mem::Context;
use outbox::{Outbox, Shape};
use semantics::Request;
use std::alloc::Global;
use verify::{Verified, verify};

/// The general as whom the program runs: general 3 of 4 under commander 0 in round 2. He relays label 0 to generals 1
/// and 2.
const SHAPE: Shape = Shape {
    generals: 4,
    commander: 0,
    general: 3,
    round: 2,
};

/// A program of eight instructions. Instruction 3 sends the order 7 to general 1. Instruction 6 asks the board to
/// replace word 9 by 5. Instruction 7 adds 1 to the old word, and the program exits with the sum.
const SWAPPING: &str =
    "mov r1, 1\nmov r2, 7\ncall sway\nmov r1, 9\nmov r2, 5\ncall board_swap\nadd r0, 1\nexit\n";

/// Assembles and verifies the program `SWAPPING`. Returns `None` if it is rejected or if memory runs out.
fn accepted(alloc: Global) -> Option<Verified> {
    let Ok(program) = assemble(alloc, SWAPPING) else {
        return None;
    };
    match verify(alloc, program) {
        Ok(verified) => Some(verified),
        Err(_) => None,
    }
}

/// Starts the program with an empty outbox. Returns `None` if memory runs out.
fn started(alloc: Global, verified: &Verified, context: &Context) -> Option<Activation>
    ensures { IfSome result (λ activation. IsOfRun verified.now context.now activation) }
{
    match Outbox::new(alloc, SHAPE) {
        Ok(outbox) => Some(Activation::start(verified, context, outbox)),
        Err(_) => None,
    }
}

/// Runs an activation until it waits for an answer of the board. Returns `None` if it exits or has taken `limit` steps
/// without such a request.
fn asked(
    activation: Activation,
    verified: &Verified,
    context: &Context,
    limit: u32,
) -> Option<Waiting>
    requires { IsOfRun verified.now context.now activation }
    ensures { IfSome result (λ waiting. IsAskOfRun verified.now context.now waiting.request waiting.standing) }
{
    match activation.advance(verified, context, limit) {
        Pause::Board(_, waiting) => Some(waiting),
        Pause::Done(_) | Pause::Cut(_) => None,
    }
}

/// Runs the program `SWAPPING` from its start to its request, which is its sixth step. Returns `None` if there is no
/// request.
fn first_request(alloc: Global, verified: &Verified, context: &Context) -> Option<Waiting>
    ensures { IfSome result (λ waiting. IsAskOfRun verified.now context.now waiting.request waiting.standing) }
{
    match started(alloc, verified, context) {
        Some(activation) => asked(activation, verified, context, 6),
        None => None,
    }
}

/// Cancels a request, and runs the program until it makes the request again. Returns `None` if the steps are not back
/// at 5 after the cancelling, or if the program makes no request by its sixth step.
fn second_request(waiting: Waiting, verified: &Verified, context: &Context) -> Option<Waiting>
    requires { IsAskOfRun verified.now context.now waiting.request waiting.standing }
    ensures { IfSome result (λ again. IsAskOfRun verified.now context.now again.request again.standing) }
{
    let activation = waiting.cancel();
    if activation.steps() != 5 {
        return None;
    }
    asked(activation, verified, context, 6)
}

/// Answers a request with a board on which every word is 41, and runs the program to its exit. Returns what it leaves.
/// Returns `None` if it does not exit within eight steps in all.
fn answered(
    alloc: Global,
    waiting: Waiting,
    verified: &Verified,
    context: &Context,
) -> Option<Ended>
    requires { IsAskOfRun verified.now context.now waiting.request waiting.standing }
{
    let mut board = Board::new(alloc, [41; 64]);
    let Ok(reply) = board.apply(SHAPE.general, SHAPE.round, waiting.request()) else {
        return None;
    };
    match waiting.answer(reply).advance(verified, context, 8) {
        Pause::Done(ended) => Some(ended),
        Pause::Board(_, _) | Pause::Cut(_) => None,
    }
}

/// Checks whether the request is the sixth step, and asks the board to replace word 9 by 5.
fn asks_to_swap(waiting: &Waiting) -> bool {
    match waiting.request() {
        Request::Swap { slot, value } => {
            waiting.steps() == 6 && slot.number() == 9 && value == 5
        }
        _ => false,
    }
}

/// Checks whether a program has taken `steps` steps, has exited with `r0` (or not, if this is `None`), and has sent
/// `order` to general 1 and nothing to general 2.
fn has_left(ended: &Ended, steps: u32, r0: Option<u64>, order: Option<u32>) -> bool {
    ended.steps == steps
        && ended.r0 == r0
        && ended.outbox.get(0, 1) == order
        && ended.outbox.get(0, 2).is_none()
}

/// Checks that the program `SWAPPING` asks the board to replace word 9, and exits with 42 when the answer is 41.
fn exits_once_answered(alloc: Global, verified: &Verified, context: &Context) -> bool {
    let Some(waiting) = first_request(alloc, verified, context) else {
        return false;
    };
    if !asks_to_swap(&waiting) {
        return false;
    }
    match answered(alloc, waiting, verified, context) {
        Some(ended) => has_left(&ended, 8, Some(42), Some(7)),
        None => false,
    }
}

/// Checks that the program `SWAPPING` makes the same request again after the first one is cancelled. It then exits as
/// if it had made only one.
fn asks_again(alloc: Global, verified: &Verified, context: &Context) -> bool {
    let Some(waiting) = first_request(alloc, verified, context) else {
        return false;
    };
    let Some(again) = second_request(waiting, verified, context) else {
        return false;
    };
    if !asks_to_swap(&again) {
        return false;
    }
    match answered(alloc, again, verified, context) {
        Some(ended) => has_left(&ended, 8, Some(42), Some(7)),
        None => false,
    }
}

/// Checks that the program `SWAPPING` has taken five steps and has no result if it ends after its request was
/// cancelled.
fn ends_unanswered(alloc: Global, verified: &Verified, context: &Context) -> bool {
    match first_request(alloc, verified, context) {
        Some(waiting) => has_left(&waiting.cancel().end(), 5, None, Some(7)),
        None => false,
    }
}

/// Checks whether a limit of `limit` steps cuts the program `SWAPPING`, and whether it has then sent `order` to general
/// 1.
fn is_cut(
    alloc: Global,
    verified: &Verified,
    context: &Context,
    limit: u32,
    order: Option<u32>,
) -> bool {
    let Some(activation) = started(alloc, verified, context) else {
        return false;
    };
    match activation.advance(verified, context, limit) {
        Pause::Cut(cut) => has_left(&cut.end(), limit, None, order),
        Pause::Board(_, _) | Pause::Done(_) => false,
    }
}

/// Limits on the steps that cut the program `SWAPPING`, with the order that it has then sent to general 1. Its third
/// step sends the order, and its sixth step makes the request.
const CUTS: &[(u32, Option<u32>)] = &[(0, None), (2, None), (3, Some(7)), (5, Some(7))];

/// Checks that each limit in `CUTS` cuts the program, with the order that it has then sent.
fn are_cuts(alloc: Global, verified: &Verified, context: &Context) -> bool {
    for &(limit, order) in CUTS {
        if !is_cut(alloc, verified, context, limit, order) {
            return false;
        }
    }
    true
}

/// Checks three runs of the program `SWAPPING`. In the first its request is answered, in the second it is cancelled
/// once and then answered, and in the third it is cancelled and the run ends.
fn requests_are_served(alloc: Global, context: &Context) -> bool {
    match accepted(alloc) {
        Some(verified) => {
            exits_once_answered(alloc, &verified, context)
                && asks_again(alloc, &verified, context)
                && ends_unanswered(alloc, &verified, context)
        }
        None => false,
    }
}

#[test]
fn a_request_is_answered_or_cancelled(rt: HostRuntime) {
    let bytes = [0; Context::BYTES];
    let context = Context::new(&bytes);
    assert!(rt; requests_are_served(rt.alloc(), &context));
}

/// Checks that each limit in `CUTS` cuts the program `SWAPPING`.
fn limits_cut(alloc: Global, context: &Context) -> bool {
    match accepted(alloc) {
        Some(verified) => are_cuts(alloc, &verified, context),
        None => false,
    }
}

#[test]
fn a_program_is_cut_at_its_limit(rt: HostRuntime) {
    let bytes = [0; Context::BYTES];
    let context = Context::new(&bytes);
    assert!(rt; limits_cut(rt.alloc(), &context));
}
