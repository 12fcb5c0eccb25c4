//! The registers of a line number program's state machine, and the rows that it appends.
ghost use Rattle.std.specs.Prelude.{◌≡◌, ◌^◌};

/// The registers of the state machine that are needed to find the file and line of an address.
#[derive(Clone, Copy)]
pub struct LineRegisters {
    /// The address in the function's section, in bytes, modulo 2^64. It means nothing if `inside` is false.
    pub address: u64,
    /// Whether the address is in the section of the function whose lines are wanted.
    pub inside: bool,
    /// The number of the file.
    pub file: u64,
    /// The number of the line, or 0 if there is none.
    pub line: u64,
}

/// A row of the line table. Its file and line belong to the addresses from the row's address up to the next row's.
#[derive(Clone, Copy)]
pub struct LineRow {
    /// The registers when the row was appended.
    pub registers: LineRegisters,
    /// Whether the row ends a sequence. Its address is then the first one after the sequence.
    pub last: bool,
}
