//! Defines a program's call of a helper.
use helper::Helper;

/// A program's call of a helper: the unit of the call (units have 8 bytes and are counted from 0), the helper, and
/// the numbers in r1, r2 and r3.
#[derive(Clone, Copy)]
pub struct HelperCall {
    pub unit: usize,
    pub helper: Helper,
    pub first: u64,
    pub second: u64,
    pub third: u64,
}
