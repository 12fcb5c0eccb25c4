//! Defines sessions: names for what contracts know when a general begins a task.
use std::marker::Brand;

/// A name, used only in proofs, for the accesses that a general's earlier letters contain and for what his gate
/// guarantees. Each task has its own session. It is part of the type of the task's server (`Gated`), so serving cannot
/// change it.
pub(crate) trait Session {
    ghost use Rattle.std.specs.Prelude.{ℕ, List};
    ghost use Rattle.board.specs.Board.{Access};

    /// The accesses that the general's earlier letters contain.
    ghost before: { List Access };

    /// What is known after the gate has let a general pass, given his number, the round, and the number of the access
    /// in that round, counted from 0.
    ghost passed: { ℕ → ℕ → ℕ → Type 0 };
}

impl Session for Brand {
    ghost use Rattle.std.specs.Prelude.{[]};

    ghost before = { [] };

    ghost passed = { λ _ _ _. Unit {0} };
}
