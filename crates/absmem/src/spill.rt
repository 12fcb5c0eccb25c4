//! Spills: what is known of the pointer that is stored in a block of eight stack cells.
use semantics::Region;

/// What is known of the pointer that begins in a block of eight stack cells. At most one whole pointer can begin there.
#[derive(Clone, Copy)]
pub enum Spill {
    /// No pointer is known to begin in the block.
    Free,
    /// This whole pointer begins in the block, at cell `shift`, 0 to 7.
    Whole {
        shift: u8,
        region: Region,
        offset: i32,
    },
}
