//! Abstract values. They say what the verifier knows of a value: nothing, that it is a number in a range and with
//! certain bits, or that it is a pointer with an offset in a range.
#![tactic(auto)]

mod joins;
mod number_set;
mod operations;
mod pointer;
mod value;
mod windows;

pub use joins::{immediate, join, loaded};
pub use number_set::NumberSet;
pub use operations::{arithmetic, negate, sign_extend, swap};
pub use value::{AbsVal, Offset, Offsets};
pub use windows::{Window, window_of};
