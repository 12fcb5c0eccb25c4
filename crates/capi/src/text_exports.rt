//! The C functions that write text about a program: `byzlab_explain` and `byzlab_disassemble`.
ghost use Rattle.std.specs.Prelude.{◌≡◌, ◌≢◌, ◌≤◌, ◌⊎◌};
ghost use Rattle.capi.specs.Bytes.{IsProgram, IsAccepted, IsMisspelt, IsRefused};
ghost use Rattle.capi.specs.Texts.{GivesExplanation, GivesAssembly};

use crate::answer::Answer;
use crate::buffer::put_text;
use crate::decoder::{accepted, assembly, explained};
use crate::fault::{status_of, tell};
use crate::fault_place::FaultPlace;
use crate::status::{DONE, REFUSED};
use std::alloc::Global;

/// Verifies a program and explains it in `text`: what the verifier knows at each unit and, if it rejects the program,
/// why. The explanation is cut if `text` is too short. `needed` receives its whole length in bytes. Returns the status,
/// as `byzlab_verify` does: 0 if the program is accepted, 1 or 2 if it is rejected, and 3 if memory ran out.
#[unsafe(no_mangle)]
pub extern "C" fn byzlab_explain(
    alloc: Global,
    program: &[u8],
    text: &mut [u8],
    needed: &mut usize,
    fault: FaultPlace,
) -> Answer
    ensures known { result.status ≤ 3 }

    // The status is 0 only if the program is accepted. If it is accepted, the status is 0 or 3.
    ensures accepted { result.status ≡ 0 → IsAccepted program.now }
    ensures only { IsAccepted program.now → (result.status ≡ 0) ⊎ (result.status ≡ 3) }

    // At status 0 or 2, the explanation of the program is written.
    ensures text { (result.status ≡ 0) ⊎ (result.status ≡ 2) → GivesExplanation program.now text.old text.new needed.new }

    // At status 1 or 2, `fault` has the number of the fault and its unit.
    ensures misspelt { result.status ≡ 1 → IsMisspelt program.now result.fault.number result.fault.unit }
    ensures refused { result.status ≡ 2 → IsRefused program.now result.fault.number result.fault.unit }

    // The status is 3 only if the bytes are the bytecode of a program.
    ensures spelt { result.status ≡ 3 → IsProgram program.now }

    // `fault` changes only at status 1 and 2, and `text` and `needed` only at status 0 and 2.
    ensures untold { (result.status ≡ 0) ⊎ (result.status ≡ 3) → result.fault ≡ fault.before }
    ensures unwritten { (result.status ≡ 1) ⊎ (result.status ≡ 3) → (text.new ≡ text.old) × (needed.new ≡ needed.old) }

    // C has the memory of the fault again.
    ensures returned { result.place ≡ fault.at }
{
    let whole = match explained(alloc, program) {
        Ok(whole) => whole,
        Err(refusal) => return tell(refusal, fault),
    };
    let refusal = match accepted(alloc, program) {
        Ok(_) => {
            put_text(whole.as_bytes(), text, needed);
            return fault.keep(DONE);
        }
        Err(refusal) => refusal,
    };
    if status_of(refusal) != REFUSED {
        return tell(refusal, fault);
    }
    put_text(whole.as_bytes(), text, needed);
    tell(refusal, fault)
}

/// Disassembles a program into `text`, whether or not the verifier accepts it. The assembly is cut if `text` is too
/// short. `needed` receives its whole length in bytes. Returns the status: 0 if the text is written, 1 if the bytes are
/// not the bytecode of a program, and 3 if memory ran out.
#[unsafe(no_mangle)]
pub extern "C" fn byzlab_disassemble(
    alloc: Global,
    program: &[u8],
    text: &mut [u8],
    needed: &mut usize,
    fault: FaultPlace,
) -> Answer
    ensures known { result.status ≤ 3 }
    ensures unrefused { result.status ≢ 2 }

    // The status is 0 only if the assembly text of the program is written. If the bytes are the bytecode of a program,
    // the status is 0 or 3.
    ensures text { result.status ≡ 0 → GivesAssembly program.now text.old text.new needed.new }
    ensures only { IsProgram program.now → (result.status ≡ 0) ⊎ (result.status ≡ 3) }

    // At status 1, `fault` has the number of the fault and its unit.
    ensures misspelt { result.status ≡ 1 → IsMisspelt program.now result.fault.number result.fault.unit }

    // The status is 3 only if the bytes are the bytecode of a program.
    ensures spelt { result.status ≡ 3 → IsProgram program.now }

    // `fault` changes only at status 1, and `text` and `needed` only at status 0.
    ensures untold { (result.status ≡ 0) ⊎ (result.status ≡ 3) → result.fault ≡ fault.before }
    ensures unwritten { (result.status ≡ 1) ⊎ (result.status ≡ 3) → (text.new ≡ text.old) × (needed.new ≡ needed.old) }

    // C has the memory of the fault again.
    ensures returned { result.place ≡ fault.at }
{
    let whole = match assembly(alloc, program) {
        Ok(whole) => whole,
        Err(refusal) => return tell(refusal, fault),
    };
    put_text(whole.as_bytes(), text, needed);
    fault.keep(DONE)
}
