//! Displays regions of memory and the values of registers as text.
use semantics::{Region, Value};
use std::fmt;

/// Displays a region of memory by its name: `stack` or `context`.
#[derive(Clone, Copy)]
pub struct RegionText(pub Region);

impl fmt::Display for RegionText {
    ghost use Rattle.std.specs.Prelude.{Some};
    ghost use Rattle.trial.specs.Values.{region_text};

    ghost output = { λ place. Some (region_text place.0) };

    fn fmt<W: fmt::Write>(&self, f: &mut fmt::Formatter<W>) -> fmt::Result {
        f.write_str(match self.0 {
            Region::Stack => "stack",
            Region::Context => "context",
        })
    }
}

/// Displays the value of a register: a number, a pointer's region and offset such as `stack -8`, or `unset`.
#[derive(Clone, Copy)]
pub struct ValueText(pub Value);

impl fmt::Display for ValueText {
    ghost use Rattle.std.specs.Prelude.{Some};
    ghost use Rattle.trial.specs.Values.{value_text};

    ghost output = { λ held. Some (value_text held.0) };

    fn fmt<W: fmt::Write>(&self, f: &mut fmt::Formatter<W>) -> fmt::Result {
        match self.0 {
            Value::Unset => f.write_str("unset"),
            Value::Number(number) => write!(f, "{number}"),
            Value::Pointer(region, offset) => {
                let place = RegionText(region);
                write!(f, "{place} {offset}")
            }
        }
    }
}
