//! Functions that do nothing. The contract of each gives the caller's proof a fact that the type of the argument
//! guarantees.
ghost use Rattle.std.specs.Prelude.{◌<◌, ◌≤◌, length};
ghost use Rattle.std.specs.List.{AllByRecursion};
ghost use Rattle.insn.specs.Insn.{IsInsn};
ghost use Rattle.insn.specs.Program.{slots_of};

use insn::Program;

/// Does nothing. Its contract states that a program's instructions are well-formed, and that they take 1 to 4,096 units
/// of 8 bytes.
pub fn recall_program(program: &Program)
    ensures well { AllByRecursion IsInsn program.now }
    ensures some { 0 < length (slots_of program.now) }
    ensures bound { length (slots_of program.now) ≤ 4096 }
{
    let _instructions = program.instructions();
    let _units = program.units();
}
