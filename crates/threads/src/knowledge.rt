//! Defines what the holder of a post's pass knows. These types occur only in contracts, and no value of them is ever
//! created.
use round::Letter;
use std::collections::LinkedList;

/// The letters that one general has posted.
pub(crate) struct Posted {
    pub(crate) general: u32,
    pub(crate) letters: LinkedList<Letter>,
}

/// What the holder of a pass of the post knows. A poster knows its general and the letters that it has posted. The
/// collector knows the letters that it has taken, for how many generals it has made posters, and the letters posted
/// with each poster that was returned to it.
pub(crate) struct Known {
    pub(crate) posts: bool,
    pub(crate) takes: bool,
    pub(crate) general: u32,
    pub(crate) letters: LinkedList<Letter>,
    pub(crate) made: u32,
    pub(crate) back: LinkedList<Posted>,
}
