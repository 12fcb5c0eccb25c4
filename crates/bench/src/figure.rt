//! Defines the figures that are printed for timed work.
use crate::bytecode::UNITS;
use std::fmt;

/// How long timed work took. It is displayed in microseconds, per unit of work, and in comparison to the plain loop.
#[derive(Clone, Copy)]
pub struct Figure {
    /// The number of units, activations or steps in the work.
    pub count: u64,
    /// The median time of the work, in nanoseconds.
    pub time: u64,
    /// The median time of the plain loop over 4,096 units, in nanoseconds.
    pub plain: u64,
}

impl fmt::Display for Figure {
    fn fmt<W: fmt::Write>(&self, f: &mut fmt::Formatter<W>) -> fmt::Result {
        let micros = self.time / 1000;
        let each = Hundredths::of(self.time, self.count);
        let rate = quotient(self.count.saturating_mul(1000), self.time);
        let ratio = Hundredths::of(
            self.time.saturating_mul(UNITS as u64),
            self.count.saturating_mul(self.plain),
        );
        write!(
            f,
            "{micros} us, {each} ns each, {rate} million a second, {ratio} of the plain loop"
        )
    }
}

/// A quotient in hundredths, rounded down. It is displayed with two decimals, such as `1.25`.
#[derive(Clone, Copy)]
struct Hundredths(u64);

impl Hundredths {
    fn of(dividend: u64, divisor: u64) -> Hundredths {
        Hundredths(quotient(dividend.saturating_mul(100), divisor))
    }
}

impl fmt::Display for Hundredths {
    fn fmt<W: fmt::Write>(&self, f: &mut fmt::Formatter<W>) -> fmt::Result {
        let whole = self.0 / 100;
        let rest = self.0 % 100;
        write!(f, "{whole}.{rest:02}")
    }
}

/// Returns the quotient of two numbers, rounded down. A divisor of 0 counts as 1.
fn quotient(dividend: u64, divisor: u64) -> u64 {
    dividend / divisor.max(1)
}
