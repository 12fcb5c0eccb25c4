//! Decodes programs from bytes, and encodes them as bytes (RFC 9669, section 3). Each program has exactly one encoding,
//! and no two programs have the same.
#![tactic(auto)]

mod arithmetic;
mod decoder;
mod encoder;
mod fault;
mod fields;
mod form;
mod jump;
mod laws;
mod memory;
mod spelling;

pub use decoder::{decode, first_fault, instruction};
pub use encoder::encode;
pub use fault::{CodecError, CodecFault};
pub use laws::{
    no_fault_in_programs, one_first_fault, one_instruction, one_program, one_spelling,
    opcodes_are_told,
};
