//! The statuses that the functions for C return.

/// The task is done. If it needs an accepted program, the program was accepted.
pub const DONE: u32 = 0;

/// The bytes are not the bytecode of a program.
pub const MISSPELT: u32 = 1;

/// The bytes are the bytecode of a program that the verifier rejects.
pub const REFUSED: u32 = 2;

/// Memory ran out. The bytes are the bytecode of a program, which may be accepted or not.
pub const MEMORY: u32 = 3;

/// The context, or the list of contexts, has the wrong length.
pub const LENGTH: u32 = 4;

/// No program is loaded.
pub const UNLOADED: u32 = 5;

/// The program calls a helper that the caller does not allow.
pub const FORBIDDEN: u32 = 6;

/// The object has no program for this entry.
pub const OBJECT_FAULT: u32 = 7;

/// The object's program is longer than the buffer.
pub const ROOM: u32 = 8;
