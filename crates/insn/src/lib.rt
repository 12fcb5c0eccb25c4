//! Instructions, registers and well-formed programs (RFC 9669, section 3).
#![tactic(auto)]

mod insn;
mod kept_facts;
mod program;
mod reg;
mod size;

pub use insn::{Insn, Operand, Size};
pub use program::Program;
pub use reg::Reg;
pub use size::bytes_of_part;
