//! The verifier itself: `verify` accepts or rejects a program.
ghost use Rattle.std.specs.Prelude.{◌≡◌, ◌⊎◌, None, Some, IfOk, IfErr, IsErrAnd, IfSome, Err, length};
ghost use Rattle.semantics.specs.Run.{IsSound};
ghost use Rattle.semantics.specs.Plain.{IsPlain};
ghost use Rattle.verify.specs.Structure.{structural_fault, IsOwnFault};
ghost use Rattle.verify.specs.Judgement.{judged};
ghost use Rattle.verify.specs.Passes.{Answers, IsFirstFault, ComesThrough};
ghost use Rattle.verify.specs.Ready.{AreMade};
ghost use Rattle.insn.specs.Program.{slots_of};

use crate::error::{Refused, VerifyError};
use crate::kept_facts::recall_program;
use crate::pairs::paired;
use crate::pass::pass;
use crate::ready_form::Ready;
use crate::structure::find_fault;
use crate::verified_program::Verified;
use insn::Program;
use std::alloc::Global;

/// Checks a program, and makes its ready codes (the form that the machine runs) if it has no fault. The structure is
/// checked first: the jumps, and the exit.
///
/// # Errors
///
/// The program's first fault, or `Memory` if out of memory.
fn check(alloc: Global, program: &Program, codes: &mut Vec<Ready>) -> Result<(), VerifyError>
    ensures judged { Answers (judged program.now) result }
    ensures structural { IfSome (structural_fault program.now) (λ fault. result ≡ Err fault) }
    ensures made { IfOk result (λ _. AreMade program.now codes.new.items 0 (length (slots_of program.now))) }
    ensures long { IfOk result (λ _. length codes.new.items ≡ length (slots_of program.now)) }
{
    if let Some(fault) = find_fault(program) {
        return Err(fault);
    }
    pass(alloc, program, codes)
}

/// Accepts a program: returns it as a [`Verified`] value, with the form that the machine runs.
///
/// # Errors
///
/// Returns the program with its first fault if it is rejected, or with `Memory` if out of memory.
pub fn verify(alloc: Global, program: Program) -> Result<Verified, Refused>
    // Unless memory runs out, the result is that of one function from programs to faults.
    ensures accepted { IfOk result (λ v. judged v ≡ None) }
    ensures refused { IfErr result (λ r. (r.fault ≡ VerifyError.Memory) ⊎ (judged program ≡ Some r.fault)) }
    ensures same { IfOk result (λ v. v ≡ program) }
    ensures back { IfErr result (λ r. r.program ≡ program) }

    // An accepted program is sound.
    ensures sound { IfOk result (λ v. IsSound v) }

    // A plain program is rejected only if memory runs out.
    ensures plain { IsPlain program → IfErr result (λ r. r.fault ≡ VerifyError.Memory) }

    // If the program has a structural fault, the error is the first one. Any other fault is at an instruction.
    ensures structural { IfSome (structural_fault program) (λ fault. IsErrAnd result (λ r. r.fault ≡ fault)) }
    ensures unstructural { structural_fault program ≡ None → IfErr result (λ r. IsOwnFault program r.fault) }

    // Without a structural fault, the error is that of the first instruction that may not run, or out of memory. The
    // pass reaches the end of every accepted program.
    ensures first { structural_fault program ≡ None →
        IfErr result (λ r. (r.fault ≡ VerifyError.Memory) ⊎ IsFirstFault program r.fault) }
    ensures passed { IfOk result (λ v. ComesThrough v) }
{
    recall_program(&program);
    let mut codes = Vec::new(alloc);
    match check(alloc, &program, &mut codes) {
        Ok(()) => Ok(Verified::of(program, paired(codes))),
        Err(fault) => Err(Refused { program, fault }),
    }
}
