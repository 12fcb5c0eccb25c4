//! Assembly of bytecode that cannot be decoded completely. A unit at which no instruction can be decoded is written as
//! its 8 bytes, such as `.unit 0x0102030405060708`.
mod assembler;
mod disassembler;
mod lines;

pub use assembler::assemble;
pub use disassembler::disassemble;
