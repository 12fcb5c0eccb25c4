//! The assembler: it turns text into a program, or finds the text's first fault.

ghost use Rattle.std.specs.Prelude.{◌≡◌, ◌≤◌, Some, IfOk};
ghost use Rattle.asm.specs.Program.{Read, said, program_of, program_in};
ghost use Rattle.asm.specs.Keeping.{Keeps, Answers, AreWellKept, units_kept};

use crate::fault::{AsmError, AsmFault};
use crate::reader::{MOST_UNITS, Reading, gather};
use crate::resolver::resolve_all;
use insn::Program;
use std::alloc::Global;

/// Returns the program of a text whose lines were read without a fault. Fails with `Count` unless it has 1 to 4,096
/// units, and otherwise with the fault of the first jump whose target does not exist or is too far away.
fn finish(alloc: Global, reading: &Reading<'_>) -> Result<Program, AsmError>
    requires units { reading.now.units ≤ 4096 → reading.now.units ≡ units_kept reading.now.sources.items }
    requires well { reading.now.units ≤ 4096 → AreWellKept reading.now.sources.items }
    ensures { (r : Read) → Keeps reading.now r → Answers result (program_in reading.now.lines r) }
{
    if reading.units == 0 || reading.units > MOST_UNITS {
        return Err(AsmError::At(
            AsmFault::Count,
            if reading.lines == 0 { 1 } else { reading.lines },
        ));
    }
    let insns = resolve_all(alloc, reading)?;
    Ok(Program::new(alloc, insns)?)
}

/// Assembles a text into a program.
///
/// # Errors
///
/// The first fault with its line, or `Memory` if out of memory. The lines are checked in order. Each is checked for its
/// form (A1), a name defined twice (A5), its mnemonic (A2), the number and kinds of its operands (A3), and their ranges
/// (A6). Then the number of units is checked (A7), and last the jumps, in order, for names that are not defined (A4)
/// and distances (A6).
#[tactic(auto, unfolding(crate::specs::Program::said))]
pub fn assemble(alloc: Global, text: &str) -> Result<Program, AsmError>
    // The result is the program of the text or, unless memory runs out, the first fault with its line.
    ensures said { Answers result (said text.now) }
    ensures program { IfOk result (λ p. program_of text.now ≡ Some p) }
{
    match gather(alloc, text.as_bytes()) {
        Ok(reading) => finish(alloc, &reading),
        Err(e) => Err(e),
    }
}
