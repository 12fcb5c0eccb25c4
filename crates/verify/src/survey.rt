//! What the verifier knows at each unit of a program, for explanations and reports.
ghost use Rattle.std.specs.Prelude.{◌≡◌, ◌≢◌, None, IfOk, OnErr, OnOk};
ghost use Rattle.verify.specs.Structure.{structural_fault};
ghost use Rattle.verify.specs.KnownAtUnits.{IsSurvey};

use crate::error::VerifyError;
use crate::pass::{opened, pass_units};
use crate::pending_states::kept;
use crate::ready_form::blank_codes;
use crate::state::AbsState;
use crate::structure::find_fault;
use insn::Program;
use std::alloc::{AllocError, Global};

/// What the verifier knows at each unit of a program, up to the first fault.
#[derive(Drop)]
pub struct KnownStates {
    /// What is known at each unit that the verifier reaches, or `None` if no path leads to it. If there is a fault, its
    /// unit is the last.
    pub states: Vec<Option<AbsState>>,
    /// Why the program is rejected, or `None` if it is accepted.
    pub fault: Option<VerifyError>,
}

/// Returns what the verifier knows at each unit of a program, up to its first fault. If a jump is at fault, or the last
/// instruction is not the exit, no states are returned. Fails with `AllocError` if out of memory.
pub fn known_at_units(alloc: Global, program: &Program) -> Result<KnownStates, AllocError>
    ensures { IfOk result (λ s. IsSurvey program.now s.states.items s.fault) }
{
    if let Some(fault) = find_fault(program) {
        return Ok(KnownStates {
            states: Vec::new(alloc),
            fault: Some(fault),
        });
    }
    known_forward(alloc, program)
}

/// Returns what the verifier knows at each unit of a program, up to its first fault. The program's structure must have
/// no fault. Fails with `AllocError` if out of memory.
fn known_forward(alloc: Global, program: &Program) -> Result<KnownStates, AllocError>
    requires { structural_fault program.now ≡ None }
    ensures { IfOk result (λ s. IsSurvey program.now s.states.items s.fault) }
{
    let mut pending = opened(alloc, program)?;
    let mut codes = blank_codes(alloc, program.units())?;
    let mut states = Vec::with_capacity(alloc, program.units())?;
    for unit in 0..program.units() {
        states.push(kept(&pending, unit))?;
        match pass_units(alloc, program, unit, unit + 1, &mut pending, &mut codes) {
            Ok(()) => {}
            Err(fault) => {
                let fault = Some(named(fault)?);
                return Ok(KnownStates { states, fault });
            }
        }
    }
    Ok(KnownStates {
        states,
        fault: None,
    })
}

/// Returns `fault` if it is one of the program, and fails with `AllocError` if it is `Memory`.
fn named(fault: VerifyError) -> Result<VerifyError, AllocError>
    ensures same { IfOk result (λ f. f ≡ fault) }
    ensures named { OnOk result (fault ≢ VerifyError.Memory) }
    ensures memory { OnErr result (fault ≡ VerifyError.Memory) }
{
    match fault {
        VerifyError::Memory => Err(AllocError),
        _ => Ok(fault),
    }
}
