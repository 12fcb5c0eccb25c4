//! Recalls for proofs what the type of a scenario guarantees.
ghost use Rattle.std.specs.Prelude.{◌≡◌, ◌≤◌, ℕ, List, Some, length};
ghost use Rattle.insn.specs.declared.insn.Insn.{Insn};
ghost use Rattle.round.specs.Scenario.{program_of};

use round::Scenario;

/// Does nothing. Its contract says that no program of a scenario has more than 4,096 instructions.
pub fn recall_short(scenario: &Scenario)
    ensures { (g : ℕ) (program : List Insn) → program_of scenario.now g ≡ Some program → length program ≤ 4096 }
{
    for general in 0..scenario.generals() {
        if let Some(program) = scenario.seat(general).program() {
            let _instructions = program.program().len();
        }
    }
}
