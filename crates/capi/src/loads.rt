//! The C functions that load a program once and run it often: `byzlab_load`, `byzlab_run_loaded` and `byzlab_unload`.
ghost use Rattle.std.specs.Prelude.{◌≡◌, ◌≤◌, ◌<◌, ◌⊎◌, ℕ, List, None, length};
ghost use Rattle.capi.specs.Bytes.{IsProgram, IsAccepted, IsMisspelt, IsRefused};
ghost use Rattle.capi.specs.Helpers.{IsAllowed, IsForbidden};
ghost use Rattle.capi.specs.Loads.{IsLoaded};
ghost use Rattle.capi.specs.Padding.{padded};
ghost use Rattle.capi.specs.Runs.{IsRun};

use crate::answer::Answer;
use crate::decoder::accepted;
use crate::fault::{NumberedFault, tell};
use crate::fault_place::FaultPlace;
use crate::helpers::first_forbidden;
use crate::kept::Kept;
use crate::loaded::Loaded;
use crate::outcome::RunOutcome;
use crate::status::{DONE, FORBIDDEN, LENGTH, MEMORY, UNLOADED};
use mem::Context;
use std::alloc::Global;

/// Verifies a program and stores it in `loaded`, in place of the program that was loaded there. The program may call
/// helper n only if bit n of `helpers` is set. Returns the status: 0 if it is loaded, 1 or 2 if it is rejected, 3 if
/// memory ran out, and 6 if it calls a helper that is not allowed.
#[unsafe(no_mangle)]
pub extern "C" fn byzlab_load(
    alloc: Global,
    program: &[u8],
    helpers: u64,
    loaded: &mut Loaded,
    fault: FaultPlace,
) -> Answer
    ensures known { (result.status ≤ 3) ⊎ (result.status ≡ 6) }

    // The status is 0 only if the program is accepted and calls only allowed helpers, and it is then loaded. If the
    // program is accepted, the status is 0, 3 or 6.
    ensures accepted { result.status ≡ 0 → IsAccepted program.now }
    ensures only { IsAccepted program.now → (result.status ≡ 0) ⊎ (result.status ≡ 3) ⊎ (result.status ≡ 6) }
    ensures allowed { result.status ≡ 0 → IsAllowed program.now helpers }
    ensures kept { result.status ≡ 0 → IsLoaded program.now loaded.new.place.program }

    // At status 6 the program is accepted, and `fault` has the number of the first helper that is not allowed, and the
    // unit of its call.
    ensures forbidden { result.status ≡ 6 → IsForbidden program.now helpers result.fault.number result.fault.unit }

    // At status 1 or 2, `fault` has the number of the fault and its unit.
    ensures misspelt { result.status ≡ 1 → IsMisspelt program.now result.fault.number result.fault.unit }
    ensures refused { result.status ≡ 2 → IsRefused program.now result.fault.number result.fault.unit }

    // The status is 3 only if the bytes are the bytecode of a program.
    ensures spelt { result.status ≡ 3 → IsProgram program.now }

    // `fault` changes only at status 1, 2 and 6, and `loaded` only at status 0.
    ensures untold { (result.status ≡ 1) ⊎ (result.status ≡ 2) ⊎ (result.status ≡ 6) ⊎ (result.fault ≡ fault.before) }
    ensures unwritten { (result.status ≡ 0) ⊎ (loaded.new ≡ loaded.old) }

    // C has the memory of the fault again.
    ensures returned { result.place ≡ fault.at }
{
    let verified = match accepted(alloc, program) {
        Ok(verified) => verified,
        Err(refusal) => return tell(refusal, fault),
    };
    if let Some((number, unit)) = first_forbidden(&verified, helpers) {
        return fault.put(NumberedFault { number, unit }, FORBIDDEN);
    }
    let kept = match Kept::new(alloc, verified) {
        Ok(kept) => kept,
        Err(_) => return fault.keep(MEMORY),
    };
    match Box::new(alloc, kept) {
        Ok(boxed) => {
            loaded.put(alloc, boxed);
            fault.keep(DONE)
        }
        Err(_) => fault.keep(MEMORY),
    }
}

/// Runs the loaded program. The context begins with the bytes in `context`, at most 4,096, and continues with zeros up
/// to 4,096 bytes. `board` has the words of the board, which the program reads and changes. Returns the status: 0 if
/// the program has run, 3 if memory ran out, 4 if the context is too long, and 5 if no program is loaded.
#[tactic(auto, using(crate::proofs::LoadedRuns::runs_loaded))]
#[unsafe(no_mangle)]
pub extern "C" fn byzlab_run_loaded(
    alloc: Global,
    loaded: &mut Loaded,
    context: &[u8],
    board: &mut [u64; 64],
    outcome: &mut RunOutcome,
) -> u32
    ensures known { (result ≡ 0) ⊎ (result ≡ 3) ⊎ (result ≡ 4) ⊎ (result ≡ 5) }

    // The status is 4 exactly if the context has more than 4,096 bytes. Otherwise it is 5 exactly if no program is
    // loaded.
    ensures long { result ≡ 4 → 4096 < length context.now }
    ensures cut { 4096 < length context.now → result ≡ 4 }
    ensures none { result ≡ 5 → loaded.old.place.program ≡ None }
    ensures lacking { length context.now ≤ 4096 → loaded.old.place.program ≡ None → result ≡ 5 }

    // At status 0 the loaded program has run as `byzlab_run` would run it. It stays loaded at every status.
    ensures ran { result ≡ 0 → (bytes : List ℕ) → IsLoaded bytes loaded.old.place.program →
        IsRun bytes (padded context.now) board.old outcome.new.r0 outcome.new.steps board.new }
    ensures kept { loaded.new.place.program ≡ loaded.old.place.program }

    // At any other status than 0, the board and the outcome are unchanged.
    ensures unwritten { (result ≡ 0) ⊎ (board.new ≡ board.old) × (outcome.new ≡ outcome.old) }
{
    if context.len() > Context::BYTES {
        return LENGTH;
    }
    let Some(mut kept) = loaded.take(alloc) else {
        return UNLOADED;
    };
    let status = match kept.run(alloc, context, board) {
        Ok(exited) => {
            *outcome = exited;
            DONE
        }
        Err(_) => MEMORY,
    };
    loaded.put(alloc, kept);
    status
}

/// Frees the memory of the loaded program, if there is one. Then no program is loaded.
#[unsafe(no_mangle)]
pub extern "C" fn byzlab_unload(alloc: Global, loaded: &mut Loaded)
    ensures { loaded.new.place.program ≡ None }
{
    let _gone = loaded.take(alloc);
}
