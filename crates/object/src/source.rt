//! The bytes of an object that are needed to run its line number program.

/// The bytes of an object that are needed to run its line number program.
#[derive(Clone, Copy)]
pub struct LineSections<'a> {
    /// The bytes of .debug_line, up to the end of the line number program.
    pub bytes: &'a [u8],
    /// The bytes of the symbol table.
    pub symbols: &'a [u8],
    /// The index of the section with the function whose lines are wanted.
    pub section: u16,
    /// The number of bytes of each relocation: 16 or 24.
    pub size: usize,
    /// The bytes of the relocations of .debug_line.
    pub relocations: &'a [u8],
}
