//! Encodes programs as bytes.
ghost use Rattle.std.specs.Prelude.{◌≡◌, ◌≤◌, ◌<◌, ◌*◌, ◌++◌, length, IfOk, OnOk};
ghost use Rattle.codec.specs.Spelling.{instruction_bytes, program_bytes};
ghost use Rattle.codec.specs.Program.{SpellsProgram};

use crate::fields::to_bytes;
use crate::spelling::units;
use insn::{Insn, Program};
use std::alloc::{AllocError, Global};

/// Appends the 8 or 16 bytes of an instruction. Fails with `AllocError` if out of memory.
fn push_insn(bytes: &mut Vec<u8>, insn: &Insn) -> Result<(), AllocError>
    ensures { OnOk result (bytes.new.items ≡ bytes.old.items ++ instruction_bytes insn.now) }
{
    let (first, second) = units(insn);
    bytes.extend_from_slice(&to_bytes(first))?;
    if let Some(second) = second {
        bytes.extend_from_slice(&to_bytes(second))?;
    }
    Ok(())
}

/// Encodes a program as bytes, 8 for each unit.
///
/// # Errors
///
/// `AllocError` if out of memory.
pub fn encode(alloc: Global, program: &Program) -> Result<Vec<u8>, AllocError>
    // The result has exactly the bytes of the program.
    ensures spelled { IfOk result (λ v. v.items ≡ program_bytes program.now) }
    // The bytes encode the program, so decoding them returns it.
    ensures spells { IfOk result (λ v. SpellsProgram v.items program.now) }
{
    let mut bytes = Vec::with_capacity(alloc, 8 * program.units())?;
    for insn in program.instructions() {
        push_insn(&mut bytes, insn)?;
    }
    Ok(bytes)
}
