//! The C function that reads a program from an ELF object: `byzlab_object`.
ghost use Rattle.std.specs.Prelude.{◌≡◌, ◌⊎◌, ℕ, List, MatchResult, length};
ghost use Rattle.object.specs.Symbol.{asked};
ghost use Rattle.capi.specs.Objects.{given, IsEntry, HasFault, IsFaulty, GivesProgram, NeedsRoom};

use crate::answer::Answer;
use crate::buffer::put_start;
use crate::fault_place::FaultPlace;
use crate::object_fault::object_fault;
use crate::status::{DONE, OBJECT_FAULT, ROOM};
use object::ObjectFault;

/// Returns the name of the entry, or `None` if `name` is empty.
fn name_of(name: &[u8]) -> Option<&[u8]>
    ensures { asked result ≡ given name.now }
{
    if name.is_empty() { None } else { Some(name) }
}

/// Returns the bytecode of the object's entry: the function with this name or, if the name is empty, the only global
/// function. Fails with the object's first fault.
fn bytecode_of<'a>(object: &'a [u8], name: &[u8]) -> Result<&'a [u8], ObjectFault>
    ensures { MatchResult result (λ code. IsEntry object.now name.now code.now)
        (λ fault. HasFault object.now name.now fault) }
{
    object::entry(object, name_of(name))
}

/// Reads an ELF object for BPF, and writes the bytecode of its entry into `program`. The entry is the function with the
/// name `entry` or, if `entry` is empty, the only global function. `needed` receives the length of the bytecode in
/// bytes. Returns the status: 0 if the bytecode is written, 7 if the object has none for this entry, and 8 if
/// `program` is too short. For 7, `fault` receives the object's first fault.
#[unsafe(no_mangle)]
pub extern "C" fn byzlab_object(
    object: &[u8],
    entry: &[u8],
    program: &mut [u8],
    needed: &mut usize,
    fault: FaultPlace,
) -> Answer
    ensures known { (result.status ≡ 0) ⊎ (result.status ≡ 7) ⊎ (result.status ≡ 8) }

    // At status 0 the entry's bytecode is written. At status 8 it is longer than `program`. If the entry has bytecode,
    // the status is 0 or 8.
    ensures given { result.status ≡ 0 → GivesProgram object.now entry.now program.old program.new needed.new }
    ensures room { result.status ≡ 8 → NeedsRoom object.now entry.now (length program.old) needed.new }
    ensures only { (code : List ℕ) → IsEntry object.now entry.now code → (result.status ≡ 0) ⊎ (result.status ≡ 8) }

    // At status 7, `fault` has the number of the object's first fault and its place.
    ensures faulty { result.status ≡ 7 → IsFaulty object.now entry.now result.fault.number result.fault.unit }

    // `fault` changes only at status 7, `program` only at status 0, and `needed` only at status 0 and 8.
    ensures untold { (result.status ≡ 7) ⊎ (result.fault ≡ fault.before) }
    ensures unwritten { (result.status ≡ 0) ⊎ (program.new ≡ program.old) }
    ensures unneeded { result.status ≡ 7 → needed.new ≡ needed.old }

    // C has the memory of the fault again.
    ensures returned { result.place ≡ fault.at }
{
    let code = match bytecode_of(object, entry) {
        Ok(code) => code,
        Err(found) => return fault.put(object_fault(found), OBJECT_FAULT),
    };
    *needed = code.len();
    if code.len() > program.len() {
        return fault.keep(ROOM);
    }
    put_start(program, code);
    fault.keep(DONE)
}
