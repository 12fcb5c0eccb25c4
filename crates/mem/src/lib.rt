//! The memory of a program: the stack, which it reads and writes, and the context, which it reads. A cell is one byte
//! of the stack.
//!
//! `load`, `load_signed` and `store` check each access, and return a fault if it is not allowed. The tests call them.
//! The machine calls `read`, `read_signed`, `write_number` and `write_pointer` instead. These four require that the
//! access succeeds, as the verifier has proved for the machine's programs.
//!
//! The module `layout` gives the layout of a context, which is 4,096 bytes of 4-byte little-endian numbers. The first
//! eight describe the campaign, the round and the general. After them is the order that he took for each label.
#![tactic(auto)]

mod access;
mod byte_order;
mod cells;
mod context;
mod context_reader;
mod context_writer;
mod fault;
pub mod layout;
mod rows;
mod stack;
mod window;

pub use access::{load, load_signed, read, read_signed, store, write_number, write_pointer};
pub use context::Context;
pub use context_reader::{number_told, taken_value, word_at};
pub use context_writer::{context_telling, write_context};
pub use fault::MemoryFault;
pub use rows::{load_row, store_words};
pub use stack::Stack;
