//! Abstract stacks. They say what the verifier knows of the stack: which cells are bytes, and where whole pointers are
//! stored.
#![tactic(auto)]

mod blocks;
mod cell_set;
mod mask;
mod pointers;
mod spill;
mod stack;

pub use spill::Spill;
pub use stack::AbsStack;
