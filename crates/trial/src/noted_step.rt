//! Runs one step of a program, and notes it if it is a slip: a call that should send orders, but has no effect.
ghost use Rattle.std.specs.Prelude.{◌≡◌, ◌<◌, ◌≤◌, ◌++◌, length, IfOk, OnOk};
ghost use Rattle.machine.specs.Advance.{IsOfRun};
ghost use Rattle.trial.specs.Noted.{call_said, says_none};
ghost use Rattle.trial.specs.Noting.{IsNoted};
ghost use Rattle.trial.specs.Slips.{call_at, call_by, number_at};

use crate::helper_call::HelperCall;
use crate::turn::Turn;
use helper::reads::numbered;
use helper::{Helper, helper_of};
use insn::Insn;
use machine::{Machine, StopReason};
use mem::Context;
use semantics::Value;
use std::alloc::AllocError;
use verify::Verified;

/// Runs one instruction, and returns what it did. Appends it to `calls` if it is a slip.
pub(crate) fn step_noted(
    calls: &mut Vec<HelperCall>,
    verified: &Verified,
    context: &Context,
    activation: &mut Machine,
) -> Result<Turn, AllocError>
    requires { IsOfRun verified.now context.now activation.old }
    ensures fewer { activation.old.state.steps < length verified.now }
    ensures relay { activation.new.relay ≡ activation.old.relay }
    ensures noted { IfOk result (λ turn.
        IsNoted verified.now context.now activation.old calls.old.items turn activation.new calls.new.items) }
{
    let program = verified.program();
    prove!((activation.steps() as usize) < program.len());
    let Some(insn) = program.at(activation.unit()) else {
        return Ok(Turn::Ended);
    };
    let call = call_at(activation, &insn);
    let limit = activation.steps() + 1;
    match activation.run(verified, context, limit) {
        StopReason::Limit => {
            put_slip(calls, number_at(activation, 0), call)?;
            Ok(Turn::Onward)
        }
        StopReason::Asked(request) => Ok(Turn::Asked(request)),
        StopReason::Exited(_) => Ok(Turn::Ended),
    }
}

/// Returns the number in a register, or 0 if the register does not hold a number.
fn number_at(activation: &Machine, register: u8) -> u64
    requires { register ≤ 10 }
    ensures { result ≡ number_at activation.now.state register }
{
    match activation.value(numbered(register)) {
        Value::Number(number) => number,
        _ => 0,
    }
}

/// Returns the call that the next instruction makes, or `None` if it is not a call of a helper.
fn call_at(activation: &Machine, insn: &Insn) -> Option<HelperCall>
    ensures { result ≡ call_at activation.now.state insn.now }
{
    match insn {
        Insn::Call { helper } => call_by(activation, helper_of(*helper)),
        _ => None,
    }
}

/// Returns the call of `helper` at the activation's unit with the numbers in r1, r2 and r3, or `None` if there is no
/// helper.
fn call_by(activation: &Machine, helper: Option<Helper>) -> Option<HelperCall>
    ensures { result ≡ call_by activation.now.state helper }
{
    let helper = helper?;
    Some(HelperCall {
        unit: activation.unit(),
        helper,
        first: number_at(activation, 1),
        second: number_at(activation, 2),
        third: number_at(activation, 3),
    })
}

/// Appends the call that was just made, if `r0`, which it returned, says that it had no effect although it should.
fn put_slip(
    calls: &mut Vec<HelperCall>,
    r0: u64,
    call: Option<HelperCall>,
) -> Result<(), AllocError>
    ensures { OnOk result (calls.new.items ≡ calls.old.items ++ call_said r0 call) }
{
    let Some(call) = call else {
        return Ok(());
    };
    if says_none(call.helper, r0) {
        calls.push(call)?;
    }
    Ok(())
}

/// Checks whether `r0`, which the helper returned, says that this call had no effect. Returns false for a helper that
/// can never send an order.
fn says_none(helper: Helper, r0: u64) -> bool
    ensures { result ≡ says_none helper r0 }
{
    match helper {
        Helper::Send | Helper::SignOrder | Helper::PassOn => r0 == 1,
        Helper::SendRow | Helper::Sway | Helper::Honest => r0 == 0,
        _ => false,
    }
}
