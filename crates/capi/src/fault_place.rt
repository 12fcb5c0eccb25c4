//! The place at which a C program wants faults.
ghost use Rattle.std.specs.Prelude.{◌≡◌};
ghost use Rattle.capi.specs.FaultPlaces.{fault_after};
ghost use Rattle.capi.specs.declared.fault.NumberedFault.{NumberedFault};

use crate::answer::Answer;
use crate::fault::NumberedFault;
use std::marker::Model;

/// The address at which a C program wants faults, or null if it wants none. This value owns the memory at the address. By
/// the ABI of Linux on x86-64, C passes it as it passes a pointer.
#[repr(C)]
#[derive(Drop)]
pub struct FaultPlace {
    at: *mut NumberedFault,
    /// The fault that is at the address before the call.
    pub ghost before: { NumberedFault },
}

impl Model for FaultPlace {
    ghost use Rattle.capi.specs.FaultPlaces.{fault_owns};

    ghost also_owns = { λ p. fault_owns p.at p.before };
}

impl FaultPlace {
    /// Stores a fault, and returns a status and the memory of the fault. If the address is null, nothing is stored.
    pub fn put(self, fault: NumberedFault, status: u32) -> Answer
        ensures status { result.status ≡ status }
        ensures returned { result.place ≡ self.at }
        ensures fault { result.fault ≡ fault }
    {
        settle(self, fault, true, status)
    }

    /// Returns a status and the memory of the fault, which is unchanged.
    pub fn keep(self, status: u32) -> Answer
        ensures status { result.status ≡ status }
        ensures returned { result.place ≡ self.at }
        ensures fault { result.fault ≡ self.before }
    {
        let none = NumberedFault { number: 0, unit: 0 };
        settle(self, none, false, status)
    }
}

/// Stores `fault` if `writes` is true and the address is not null. Returns the status and the memory of the fault.
fn settle(place: FaultPlace, fault: NumberedFault, writes: bool, status: u32) -> Answer
    ensures { (result.status ≡ status) × (result.place ≡ place.at)
        × (result.fault ≡ fault_after writes fault place.before) }
{
    let FaultPlace { at } = place;
    if writes {
        if !at.is_null() {
            unsafe { *at = fault };
        }
    }
    Answer { status }
}
