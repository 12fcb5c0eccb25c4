//! Defines players. A traitor's player has a verified program, and a loyal general's has none.
ghost use Rattle.std.specs.Prelude.{◌≡◌, ◌↔◌, IfOk, IfSome, IsTrue};
ghost use Rattle.std.specs.Option.{option_map};
ghost use Rattle.std.specs.Arc.{arc_value};
ghost use Rattle.semantics.specs.Run.{IsSound};

use crate::code::same_code;
use std::alloc::{AllocError, Global};
use std::marker::Model;
use std::sync::Arc;
use verify::Verified;

/// A general as a player: a traitor with his verified program, or a loyal general without one. Contracts see the
/// program's instructions.
#[derive(Drop)]
pub struct Player {
    program: Option<Arc<Verified>>,
}

impl Model for Player {
    ghost use Rattle.std.specs.Prelude.{List, Option};
    ghost use Rattle.std.specs.Option.{option_map};
    ghost use Rattle.std.specs.Arc.{arc_value};
    ghost use Rattle.insn.specs.declared.insn.Insn.{Insn};

    ghost Value = { Option (List Insn) };

    ghost view = { λ s. option_map arc_value s.program };
}

impl Player {
    /// Returns a traitor with this program, or a loyal general if `program` is `None`.
    pub fn new(program: Option<Arc<Verified>>) -> Player
        ensures { result ≡ option_map arc_value program }
    {
        Player { program }
    }

    /// Returns the traitor's program, or `None` for a loyal general.
    pub fn program(&self) -> &Option<Arc<Verified>>
        ensures same { option_map arc_value result.now ≡ self.now }
        ensures sound { IfSome self.now IsSound }
    {
        if let Some(program) = &self.program {
            let _sound = program.program();
        }
        &self.program
    }

    /// Returns a copy of the player. It shares the program with the original.
    ///
    /// # Errors
    ///
    /// Fails with `AllocError` if the program's reference count cannot be increased.
    pub fn copy(&self) -> Result<Player, AllocError>
        ensures { IfOk result (λ seat. seat ≡ self.now) }
    {
        match &self.program {
            Some(program) => Ok(Player {
                program: Some(program.clone()?),
            }),
            None => Ok(Player { program: None }),
        }
    }

    /// Returns whether both players have the same program, or neither has one.
    pub fn same(&self, other: &Player) -> bool
        ensures { IsTrue result ↔ (self.now ≡ other.now) }
    {
        match &self.program {
            Some(program) => match &other.program {
                Some(second) => same_code(
                    program.program().instructions(),
                    second.program().instructions(),
                ),
                None => false,
            },
            None => match &other.program {
                Some(_) => false,
                None => true,
            },
        }
    }
}

/// Returns copies of the players. Each shares its program with the original. Fails with `AllocError` if there is no
/// memory for the list, or if a program's reference count cannot be increased.
pub(crate) fn copied(alloc: Global, seats: &[Player]) -> Result<Vec<Player>, AllocError>
    ensures { IfOk result (λ copy. copy.items ≡ seats.now) }
{
    let mut copy = Vec::with_capacity(alloc, seats.len())?;
    for seat in seats {
        copy.push(seat.copy()?)?;
    }
    Ok(copy)
}
