//! Runs a program without calls to its exit.
ghost use Rattle.std.specs.Prelude.{◌≡◌, [], IfOk};
ghost use Rattle.semantics.specs.Reached.{Reached};
ghost use Rattle.machine.specs.Advance.{IsOfRun};
ghost use Rattle.rule_program.specs.Calls.{IsRuleProgram};
ghost use Rattle.rule_program.specs.Evaluation.{ExitsWith, rule_relay};

use label::Shape;
use machine::{Machine, StopReason};
use mem::Context;
use outbox::Outbox;
use std::alloc::{AllocError, Global};
use verify::Verified;

/// Runs a program without calls in this context, and returns the number that it leaves in r0.
///
/// # Errors
///
/// Fails with `AllocError` if there is no memory for the outbox, which stays empty.
pub(crate) fn exit_value(
    alloc: Global,
    verified: &Verified,
    context: &Context,
) -> Result<u64, AllocError>
    requires { IsRuleProgram verified.now }
    ensures { IfOk result (ExitsWith verified.now context.now) }
{
    // The commander relays nothing after the first round, so this outbox has no places.
    let shape = Shape {
        generals: 1,
        commander: 0,
        general: 0,
        round: 2,
    };
    let outbox = Outbox::new(alloc, shape)?;
    let mut machine = Machine::start(verified, context, outbox);
    Ok(run_out(verified, context, &mut machine))
}

/// Runs a program without calls from its start to its exit, and returns the number that it leaves in r0.
fn run_out(verified: &Verified, context: &Context, machine: &mut Machine) -> u64
    requires callless { IsRuleProgram verified.now }
    requires relay { machine.old.relay ≡ rule_relay }
    requires reached { Reached verified.now context.now machine.old.relay [] machine.old.state }
    requires of_run { IsOfRun verified.now context.now machine.old }
    ensures { ExitsWith verified.now context.now result }
{
    // A sound program ends within as many steps as it has instructions.
    let limit = verified.program().len() as u32;
    match machine.run(verified, context, limit) {
        StopReason::Exited(r0) => r0,
        StopReason::Asked(_) => unreachable!(),
        StopReason::Limit => unreachable!(),
    }
}
