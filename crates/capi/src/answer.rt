//! What a C function returns that reports faults.
ghost use Rattle.capi.specs.declared.fault.NumberedFault.{NumberedFault};
ghost use denote.RawPtr.{Ptr};

use std::marker::Model;

/// The status that a C function returns, with the memory of the fault, which C has again. By the ABI of Linux on x86-64, C
/// receives it as a `uint32_t`.
#[repr(C)]
#[derive(Drop)]
pub struct Answer {
    pub status: u32,
    /// The address of the fault, or null.
    pub ghost place: { Ptr },
    /// The fault that is at the address after the call.
    pub ghost fault: { NumberedFault },
}

impl Model for Answer {
    ghost use Rattle.capi.specs.FaultPlaces.{fault_owns};

    ghost also_owns = { λ a. fault_owns a.place a.fault };
}
