//! The C functions that verify and run a program: `byzlab_run` and `byzlab_run_many`.
ghost use Rattle.std.specs.Prelude.{◌≡◌, ◌≤◌, ◌≢◌, ◌*◌, ◌⊎◌, length};
ghost use Rattle.capi.specs.Bytes.{IsProgram, IsAccepted, IsMisspelt, IsRefused};
ghost use Rattle.capi.specs.Runs.{IsRun};
ghost use Rattle.capi.specs.Many.{AreRuns, AreBegun};

use crate::answer::Answer;
use crate::decoder::accepted;
use crate::fault::tell;
use crate::fault_place::FaultPlace;
use crate::host::{run_each, run_hosted};
use crate::outcome::RunOutcome;
use crate::status::{DONE, LENGTH, MEMORY};
use mem::Context;
use std::alloc::Global;

/// Verifies a program and runs it once in the context, which must have 4,096 bytes. `board` has the words of the board,
/// which the program reads and changes. Returns the status: 0 if the program has run, 1 or 2 if it is rejected, 3 if
/// memory ran out, and 4 if the context has another length.
#[unsafe(no_mangle)]
pub extern "C" fn byzlab_run(
    alloc: Global,
    program: &[u8],
    context: &[u8],
    board: &mut [u64; 64],
    fault: FaultPlace,
    outcome: &mut RunOutcome,
) -> Answer
    ensures known { result.status ≤ 4 }

    // The status is 4 exactly if the context does not have 4,096 bytes.
    ensures short { result.status ≡ 4 → length context.now ≢ 4096 }
    ensures cut { length context.now ≢ 4096 → result.status ≡ 4 }

    // The status is 0 only if the program is accepted, and it has then run. If the program is accepted and the context
    // has 4,096 bytes, the status is 0 or 3.
    ensures accepted { result.status ≡ 0 → IsAccepted program.now }
    ensures only { IsAccepted program.now → length context.now ≡ 4096 → (result.status ≡ 0) ⊎ (result.status ≡ 3) }
    ensures ran { result.status ≡ 0 → IsRun program.now context.now board.old outcome.new.r0 outcome.new.steps board.new }

    // At status 1 or 2, `fault` has the number of the fault and its unit.
    ensures misspelt { result.status ≡ 1 → IsMisspelt program.now result.fault.number result.fault.unit }
    ensures refused { result.status ≡ 2 → IsRefused program.now result.fault.number result.fault.unit }

    // The status is 3 only if the bytes are the bytecode of a program.
    ensures spelt { result.status ≡ 3 → IsProgram program.now }

    // `fault` changes only at status 1 and 2, and the board and the outcome only at status 0.
    ensures untold { (result.status ≡ 1) ⊎ (result.status ≡ 2) ⊎ (result.fault ≡ fault.before) }
    ensures unwritten { (result.status ≡ 0) ⊎ (board.new ≡ board.old) × (outcome.new ≡ outcome.old) }

    // C has the memory of the fault again.
    ensures returned { result.place ≡ fault.at }
{
    let Some(context) = Context::try_new(context) else {
        return fault.keep(LENGTH);
    };
    let verified = match accepted(alloc, program) {
        Ok(verified) => verified,
        Err(refusal) => return tell(refusal, fault),
    };
    match run_hosted(alloc, &verified, &context, board) {
        Ok(exited) => {
            *outcome = exited;
            fault.keep(DONE)
        }
        Err(_) => fault.keep(MEMORY),
    }
}

/// Verifies a program and runs it once in each context, each time with a board on which all words are 0. The contexts
/// follow one another, with 4,096 bytes for each entry of `outcomes`. Returns the status: 0 if the program has run in
/// all, 1 or 2 if it is rejected, 3 if memory ran out, and 4 if the contexts have another length.
#[unsafe(no_mangle)]
pub extern "C" fn byzlab_run_many(
    alloc: Global,
    program: &[u8],
    contexts: &[u8],
    fault: FaultPlace,
    outcomes: &mut [RunOutcome],
) -> Answer
    ensures known { result.status ≤ 4 }

    // The status is 4 exactly if the contexts do not have 4,096 bytes for each outcome.
    ensures short { result.status ≡ 4 → length contexts.now ≢ 4096 * length outcomes.old }
    ensures cut { length contexts.now ≢ 4096 * length outcomes.old → result.status ≡ 4 }

    // The status is 0 only if the program is accepted, and it has then run in each context. If the program is accepted
    // and the contexts have the right length, the status is 0 or 3.
    ensures accepted { result.status ≡ 0 → IsAccepted program.now }
    ensures only { IsAccepted program.now → length contexts.now ≡ 4096 * length outcomes.old →
        (result.status ≡ 0) ⊎ (result.status ≡ 3) }
    ensures ran { result.status ≡ 0 → AreRuns program.now contexts.now outcomes.new }

    // At status 1 or 2, `fault` has the number of the fault and its unit.
    ensures misspelt { result.status ≡ 1 → IsMisspelt program.now result.fault.number result.fault.unit }
    ensures refused { result.status ≡ 2 → IsRefused program.now result.fault.number result.fault.unit }

    // The status is 3 only if the bytes are the bytecode of a program.
    ensures spelt { result.status ≡ 3 → IsProgram program.now }

    // `fault` changes only at status 1 and 2, and the outcomes only at status 0 and 3. At status 3, each outcome is
    // that of its run or unchanged.
    ensures untold { (result.status ≡ 1) ⊎ (result.status ≡ 2) ⊎ (result.fault ≡ fault.before) }
    ensures unwritten { (result.status ≡ 0) ⊎ (result.status ≡ 3) ⊎ (outcomes.new ≡ outcomes.old) }
    ensures begun { result.status ≡ 3 → AreBegun program.now contexts.now outcomes.old outcomes.new }

    // C has the memory of the fault again.
    ensures returned { result.place ≡ fault.at }
{
    if contexts.len() / Context::BYTES != outcomes.len() || contexts.len() % Context::BYTES != 0 {
        return fault.keep(LENGTH);
    }
    let verified = match accepted(alloc, program) {
        Ok(verified) => verified,
        Err(refusal) => return tell(refusal, fault),
    };
    match run_each(alloc, &verified, contexts, outcomes) {
        Ok(()) => fault.keep(DONE),
        Err(_) => fault.keep(MEMORY),
    }
}
