//! The comparison that a conditional jump makes.
use insn::{Operand, Reg};
use word::{Condition, Width};

/// The comparison that a conditional jump makes: its width, its condition, and its two operands.
#[derive(Clone, Copy)]
pub struct Comparison {
    pub width: Width,
    pub condition: Condition,
    pub dst: Reg,
    pub operand: Operand,
}
