//! Why a load or a store fails.
/// Why a load or a store fails.
#[derive(Clone, Copy, PartialEq, Eq)]
pub enum MemoryFault {
    /// The base register or the stored register is unset.
    UnsetRegister,
    /// The base is a number, or a pointer would be stored in fewer than 8 bytes.
    PointerUse,
    /// The bytes to access are not all in the region of the pointer.
    OutOfBounds,
    /// The stack cells to load hold neither a number nor one whole pointer.
    NoBytes,
    /// The program stores to the context, which it may only read.
    ContextWrite,
}
