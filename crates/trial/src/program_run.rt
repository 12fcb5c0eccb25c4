//! Runs one program to its exit, with a board that no other program uses.
ghost use Rattle.std.specs.Prelude.{◌≡◌, ◌++◌, Some, IfOk, OnErr};
ghost use Rattle.label.specs.Relay.{IsShape};
ghost use Rattle.semantics.specs.Relay.{oral};
ghost use Rattle.semantics.specs.State.{entry};
ghost use Rattle.semantics.specs.Outbox.{empty_outbox};
ghost use Rattle.machine.specs.Advance.{IsOfRun};
ghost use Rattle.trial.specs.Trial.{accesses_in, accesses_on, trial_in, trial_on, EntersFirst, IsOfOne, ServesOne};

use crate::setting::Setting;
use board::Board;
use label::Shape;
use machine::{Machine, StopReason};
use mem::Context;
use outbox::Outbox;
use std::alloc::{AllocError, Global};
use verify::Verified;

/// The result of a program's run, which has ended with its exit.
#[derive(Drop)]
pub struct Exited {
    /// The value with which the program exited.
    pub r0: u64,
    /// The machine at the end of the run. It contains the outbox.
    pub activation: Machine,
    /// The board at the end of the run.
    pub board: Board,
}

/// Runs a program in a setting until it exits, and returns how it ended.
///
/// # Errors
///
/// Fails with `AllocError` if there is no memory for the context, the outbox or an access.
pub fn run_in(alloc: Global, verified: &Verified, setting: &Setting) -> Result<Exited, AllocError>
    ensures ending { IfOk result
        (λ e. trial_in setting.now verified.now ≡ Some (record {
          r0 = e.r0;
          state = e.activation.state;
          words = e.board.words;
        })) }
    ensures relay { IfOk result (λ e. e.activation.relay ≡ oral setting.now.shape) }
    ensures board { IfOk result (λ e. IsOfOne setting.now.shape setting.now.board e.board) }
    ensures ledger { IfOk result (λ e. e.board.ledger ≡ accesses_in setting.now verified.now) }
{
    let bytes = setting.context(alloc)?;
    let context = Context::new(bytes.as_slice());
    run(alloc, verified, &context, setting.shape(), setting.board())
}

/// Runs a program in this context until it exits. `shape` gives the number of generals, the commander, the program's
/// general and the round, and `words` are the board's words at the start. The outbox is empty at the start.
#[tactic(auto, using(crate::proofs::Owning::all_of_one, crate::proofs::Entering::all_entered))]
fn run(
    alloc: Global,
    verified: &Verified,
    context: &Context,
    shape: Shape,
    words: [u64; 64],
) -> Result<Exited, AllocError>
    requires { IsShape shape }
    ensures ending { IfOk result
        (λ e. trial_on words verified.now context.now (oral shape) ≡ Some (record {
          r0 = e.r0;
          state = e.activation.state;
          words = e.board.words;
        })) }
    ensures relay { IfOk result (λ e. e.activation.relay ≡ oral shape) }
    ensures board { IfOk result (λ e. IsOfOne shape words e.board) }
    ensures ledger { IfOk result
        (λ e. e.board.ledger ≡ accesses_on words verified.now context.now (oral shape)) }
{
    let mut board = Board::new(alloc, words);
    let mut activation = Machine::start(verified, context, Outbox::new(alloc, shape)?);
    let r0 = run_on(&mut board, verified, context, shape, &mut activation)?;
    Ok(Exited {
        r0,
        activation,
        board,
    })
}

/// Runs an activation from its start to its exit with this board, and returns the program's exit value (r0).
///
/// # Errors
///
/// Fails with `AllocError` if there is no memory for an access.
#[tactic(auto, using(crate::proofs::Entering::served_none))]
pub fn run_on(
    board: &mut Board,
    verified: &Verified,
    context: &Context,
    shape: Shape,
    activation: &mut Machine,
) -> Result<u64, AllocError>
    requires relay { activation.old.relay ≡ oral shape }
    requires started { activation.old.state ≡ entry (empty_outbox (oral shape)) }
    requires of_run { IsOfRun verified.now context.now activation.old }
    ensures ending { IfOk result
        (λ r0. trial_on board.old.words verified.now context.now (oral shape) ≡ Some (record {
          r0 = r0;
          state = activation.new.state;
          words = board.new.words;
        })) }
    ensures relay { activation.new.relay ≡ oral shape }
    ensures board { IfOk result (λ r0. ServesOne shape board.old board.new) }
    ensures ledger { IfOk result
        (λ r0. board.new.ledger ≡ board.old.ledger
        ++ accesses_on board.old.words verified.now context.now (oral shape)) }
    ensures unserved { OnErr result
        (EntersFirst (accesses_on board.old.words verified.now context.now (oral shape)) board.old board.new) }
{
    // A sound program ends within as many steps as it has instructions.
    let limit = verified.program().len() as u32;
    loop {
        match activation.run(verified, context, limit) {
            StopReason::Asked(request) => {
                let reply = board.apply(shape.general, shape.round, request)?;
                activation.resume(&request, &reply);
            }
            StopReason::Exited(r0) => return Ok(r0),
            StopReason::Limit => unreachable!(),
        }
    }
}
