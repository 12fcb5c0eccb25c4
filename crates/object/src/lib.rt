//! Reads ELF objects for BPF: the bytecode of one function, or the object's first fault (System V ABI, "Object Files";
//! LLVM's BPF relocations). Also finds the source file and line of each unit of the bytecode (DWARF 5 and 4, "Line
//! Number Information").
#![tactic(auto)]

mod damage;
mod entries;
mod entry_search;
mod fault;
mod header;
mod leb128;
mod names;
mod number;
mod origin;
mod registers;
mod relocation;
mod rows;
mod section;
mod source;
mod step;
mod symbol;
mod tables;
mod unit_places;

pub use entry_search::{entry, function};
pub use fault::{Damage, ObjectFault, sentence};
pub use number::{byte_at, double_at, half_at, word_at};
pub use relocation::Relocation;
pub use section::{SectionHeader, count_sections, read_table};
pub use symbol::{Symbol, find_symbols};
pub use unit_places::{entry_places, places};
