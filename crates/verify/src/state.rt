//! Abstract states: what the verifier knows of a run's states at a unit.
ghost use Rattle.std.specs.Prelude.{◌≡◌};
ghost use Rattle.verify.specs.Registers.{known_at, operand_known};
ghost use Rattle.verify.specs.Knowledge.{met};

use crate::registers;
use absmem::AbsStack;
use absval::AbsVal;
use insn::{Operand, Reg};

/// An abstract state: what the verifier knows of each of the eleven registers and of the stack at a unit.
#[derive(Drop)]
pub struct AbsState {
    pub registers: [AbsVal; 11],
    pub stack: AbsStack,
}

impl AbsState {
    /// Returns what is known of a register.
    pub fn known(&self, r: Reg) -> AbsVal
        ensures { result ≡ known_at self.now.registers r }
    {
        registers::read(&self.registers, r)
    }

    /// Returns what is known of an operand.
    pub fn operand(&self, operand: Operand) -> AbsVal
        ensures { result ≡ operand_known self.now.registers operand }
    {
        registers::operand(&self.registers, operand)
    }

    /// Returns a copy of the state.
    #[inline(never)]
    pub fn copy(&self) -> AbsState
        ensures { result ≡ self.now }
    {
        AbsState {
            registers: registers::copied(&self.registers),
            stack: self.stack.copy(),
        }
    }

    /// Copies `other` into this state.
    pub fn assign(&mut self, other: &AbsState)
        ensures { self.new ≡ other.now }
    {
        registers::assign(&mut self.registers, &other.registers);
        self.stack.assign(&other.stack);
    }

    /// Joins this state with another: keeps what holds in both.
    pub fn join(&mut self, other: &AbsState)
        ensures { self.new ≡ met self.old other.now }
    {
        registers::join(&mut self.registers, &other.registers);
        self.stack.join(&other.stack);
    }
}
