//! The C function that verifies a program: `byzlab_verify`.
ghost use Rattle.std.specs.Prelude.{◌≡◌, ◌≤◌, ◌⊎◌};
ghost use Rattle.capi.specs.Bytes.{IsProgram, IsAccepted, IsSoundProgram, IsMisspelt, IsRefused};

use crate::answer::Answer;
use crate::decoder::accepted;
use crate::fault::tell;
use crate::fault_place::FaultPlace;
use crate::status::DONE;
use std::alloc::Global;

/// Verifies a program. Returns the status: 0 if it is accepted, 1 if the bytes are not the bytecode of a program, 2 if
/// the verifier rejects it, and 3 if memory ran out. For 1 and 2, `fault` receives the fault.
#[unsafe(no_mangle)]
pub extern "C" fn byzlab_verify(alloc: Global, program: &[u8], fault: FaultPlace) -> Answer
    ensures known { result.status ≤ 3 }

    // The status is 0 only if the program is accepted, and the program is then sound. If it is accepted, the status is
    // 0 or 3.
    ensures accepted { result.status ≡ 0 → IsAccepted program.now }
    ensures only { IsAccepted program.now → (result.status ≡ 0) ⊎ (result.status ≡ 3) }
    ensures sound { result.status ≡ 0 → IsSoundProgram program.now }

    // At status 1 or 2, `fault` has the number of the fault and its unit.
    ensures misspelt { result.status ≡ 1 → IsMisspelt program.now result.fault.number result.fault.unit }
    ensures refused { result.status ≡ 2 → IsRefused program.now result.fault.number result.fault.unit }

    // The status is 3 only if the bytes are the bytecode of a program.
    ensures spelt { result.status ≡ 3 → IsProgram program.now }

    // At status 0 and 3, `fault` is unchanged.
    ensures untold { (result.status ≡ 0) ⊎ (result.status ≡ 3) → result.fault ≡ fault.before }

    // C has the memory of the fault again.
    ensures returned { result.place ≡ fault.at }
{
    match accepted(alloc, program) {
        Ok(_) => {}
        Err(refusal) => return tell(refusal, fault),
    }
    fault.keep(DONE)
}
