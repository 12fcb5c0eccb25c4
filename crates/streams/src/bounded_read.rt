//! The result of a read with a limit: the whole file, or only the front and the length of a file that is too long.

/// What was read from a file that should have at most a given number of bytes.
#[derive(Drop)]
pub enum Within {
    /// All bytes of the file.
    Whole(Vec<u8>),
    /// The file has more bytes than the limit: `number` of them. `front` contains only the first ones.
    Longer { front: Vec<u8>, number: usize },
}
