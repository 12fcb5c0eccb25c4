//! Assembly: reads programs from text, and writes them as text. The module `partial` does the same for bytecode that
//! cannot be decoded completely.
#![tactic(auto)]

mod assembler;
mod disassembler;
mod draft;
mod fault;
mod helper;
mod laws;
mod line;
mod mnemonic;
mod number;
mod operand;
mod outline;
pub mod partial;
mod printer;
mod reader;
mod resolver;
mod statement;
mod text_parts;
mod unit_places;
mod unit_text;

pub use assembler::assemble;
pub use disassembler::{disassemble, disassemble_units};
pub use fault::{AsmError, AsmFault};
pub use laws::{
    faults_are_first, helpers_are_numbered, jumps_lead_to_names, mnemonics_are_named,
    registers_are_numbered,
};
pub use printer::put_instruction;
pub use text_parts::{put, put_number, put_unsigned};
pub use unit_places::places;
pub use unit_text::statements;
