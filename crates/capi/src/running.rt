//! Runs an activation to its exit, with the board of a C program.
ghost use Rattle.std.specs.Prelude.{◌≡◌, Some, IfOk};
ghost use Rattle.semantics.specs.Relay.{oral};
ghost use Rattle.semantics.specs.State.{entry};
ghost use Rattle.semantics.specs.Outbox.{empty_outbox};
ghost use Rattle.machine.specs.Advance.{IsOfRun};
ghost use Rattle.trial.specs.Trial.{trial_on};
ghost use Rattle.capi.specs.Runs.{host};

use crate::serving::serve;
use machine::{Machine, StopReason};
use mem::Context;
use std::alloc::{AllocError, Global};
use verify::Verified;

/// Runs an activation that has just started to its exit, and returns the value of r0. `words` are the words of the
/// board: the program's requests read and change them.
///
/// # Errors
///
/// Fails with `AllocError` if there is no memory for the answer to a request. The words then have the changes up to
/// this request.
#[tactic(auto, using(crate::proofs::Bare::starts))]
pub fn run_over(
    alloc: Global,
    words: &mut [u64; 64],
    verified: &Verified,
    context: &Context,
    activation: &mut Machine,
) -> Result<u64, AllocError>
    requires relay { activation.old.relay ≡ oral host }
    requires started { activation.old.state ≡ entry (empty_outbox (oral host)) }
    requires of_run { IsOfRun verified.now context.now activation.old }
    ensures ending { IfOk result
        (λ r0. trial_on words.old verified.now context.now (oral host) ≡ Some (record {
          r0 = r0;
          state = activation.new.state;
          words = words.new;
        })) }
    ensures relay { IfOk result (λ r0. activation.new.relay ≡ oral host) }
{
    // A sound program ends within as many steps as it has instructions.
    let limit = verified.program().len() as u32;
    loop {
        match activation.run(verified, context, limit) {
            StopReason::Asked(request) => {
                let reply = serve(alloc, words, request)?;
                activation.resume(&request, &reply);
            }
            StopReason::Exited(r0) => return Ok(r0),
            StopReason::Limit => unreachable!(),
        }
    }
}
