//! Turns the faults of rejected programs into numbers for C.
ghost use Rattle.std.specs.Prelude.{◌≡◌, ◌≤◌, ℕ, List};
ghost use Rattle.capi.specs.Numbers.{fault_number, reason_number};
ghost use Rattle.capi.specs.Bytes.{IsProgram, IsMisspelt, IsRefused};
ghost use Rattle.capi.specs.Refusals.{Refuses, status_of};

use crate::answer::Answer;
use crate::fault_place::FaultPlace;
use crate::refusal::BytecodeRefusal;
use crate::status::{MEMORY, MISSPELT, REFUSED};
use codec::CodecFault as Misspelling;
use verify::Reason;

/// Why a program is rejected, for C: the number of the fault, and the number of the unit (8 bytes) at which it is.
/// Faults 1 to 8 are faults of the bytecode, C1 to C8. Faults 101 to 113 are the verifier's reasons, V1 to V13. If a
/// call of a helper is not allowed, which is status 6, the number is that of the helper. Faults 201 to 209 are faults of an
/// object, and the unit may be the index of a section or symbol.
#[repr(C)]
#[derive(Clone, Copy, Drop)]
pub struct NumberedFault {
    pub number: u32,
    pub unit: usize,
}

/// Returns the number of a fault of bytecode for C: 1 to 8 for the faults C1 to C8.
pub fn fault_number(fault: Misspelling) -> u32
    ensures { result ≡ fault_number fault }
{
    match fault {
        Misspelling::Length => 1,
        Misspelling::Opcode => 2,
        Misspelling::Reserved => 3,
        Misspelling::WideCut => 4,
        Misspelling::Register => 5,
        Misspelling::LeftOut => 6,
        Misspelling::Operand => 7,
        Misspelling::Count => 8,
    }
}

/// Returns the number of a reason of the verifier for C: 101 to 113 for the reasons V1 to V13.
pub fn reason_number(reason: Reason) -> u32
    ensures { result ≡ reason_number reason }
{
    match reason {
        Reason::BackJump => 101,
        Reason::JumpOut => 102,
        Reason::JumpInWide => 103,
        Reason::LastNotExit => 104,
        Reason::Unset => 105,
        Reason::FrameWrite => 106,
        Reason::PointerUse => 107,
        Reason::Bounds => 108,
        Reason::StackUnset => 109,
        Reason::ContextWrite => 110,
        Reason::Helper => 111,
        Reason::Argument => 112,
        Reason::ExitPointer => 113,
    }
}

/// Returns the status of a refusal for C, 1 to 3.
pub fn status_of(refusal: BytecodeRefusal) -> u32
    ensures { result ≡ status_of refusal }
{
    match refusal {
        BytecodeRefusal::Misspelt(_, _) => MISSPELT,
        BytecodeRefusal::Refused(_, _) => REFUSED,
        BytecodeRefusal::Memory => MEMORY,
    }
}

/// Stores the number and the unit of a refusal in `fault`, and returns the status of the refusal for C, 1 to 3. For
/// `Memory`, which has no number, the fault is unchanged.
pub fn tell(refusal: BytecodeRefusal, fault: FaultPlace) -> Answer
    ensures status { result.status ≡ status_of refusal }
    ensures least { 1 ≤ result.status }
    ensures most { result.status ≤ 3 }
    ensures misspelt { (bytes : List ℕ) → Refuses bytes refusal → result.status ≡ 1 →
        IsMisspelt bytes result.fault.number result.fault.unit }
    ensures refused { (bytes : List ℕ) → Refuses bytes refusal → result.status ≡ 2 →
        IsRefused bytes result.fault.number result.fault.unit }
    ensures memory { refusal ≡ BytecodeRefusal.Memory → result.status ≡ 3 }
    ensures spelt { (bytes : List ℕ) → Refuses bytes refusal → result.status ≡ 3 → IsProgram bytes }
    ensures untold { result.status ≡ 3 → result.fault ≡ fault.before }
    ensures returned { result.place ≡ fault.at }
{
    match refusal {
        BytecodeRefusal::Misspelt(found, unit) => {
            let number = fault_number(found);
            fault.put(NumberedFault { number, unit }, MISSPELT)
        }
        BytecodeRefusal::Refused(reason, unit) => {
            let number = reason_number(reason);
            fault.put(NumberedFault { number, unit }, REFUSED)
        }
        BytecodeRefusal::Memory => fault.keep(MEMORY),
    }
}
