//! Laws of the encoding. Each function does nothing, and its contract is the law.
ghost use Rattle.codec.specs.Laws.{OneInstruction, OneProgram, OneSpelling, OneFirstFault, NoFaultInPrograms};
ghost use Rattle.codec.specs.Opcodes.{OpcodesAreTold};

/// States that two different well-formed instructions never have the same encoding.
pub fn one_instruction()
    ensures { OneInstruction }
{}

/// States that bytes encode at most one program, so that an encoded program is decoded to itself.
pub fn one_program()
    ensures { OneProgram }
{}

/// States that a program has only one encoding, so that a decoded program is encoded as the same bytes.
pub fn one_spelling()
    ensures { OneSpelling }
{}

/// States that bytes have at most one first fault.
pub fn one_first_fault()
    ensures { OneFirstFault }
{}

/// States that bytes that encode a program have no first fault.
pub fn no_fault_in_programs()
    ensures { NoFaultInPrograms }
{}

/// States when the faults `Opcode` and `LeftOut` are reported. `LeftOut` is reported exactly for the instructions that
/// are not supported. `Opcode` is reported exactly if the opcode is that of no well-formed instruction and of none that
/// is not supported.
pub fn opcodes_are_told()
    ensures { OpcodesAreTold }
{}
