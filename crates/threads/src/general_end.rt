//! Defines how the thread of a general can end.
use crate::failure::Failure;

/// How the thread of a general has ended.
#[derive(Clone, Copy, Default)]
pub struct GeneralEnd {
    /// The general.
    pub general: u32,
    /// Why he has failed, or `None` if his thread ended because no more rounds were conducted.
    pub failure: Option<Failure>,
}
