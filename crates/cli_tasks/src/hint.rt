//! Hints: explanations that are printed after the error line of a rejected input.
use crate::likeness::{Likeness, seems};
use std::fmt;

/// A hint: the text that is printed after the error line of a rejected input.
#[derive(Drop)]
pub enum Hint {
    /// Says what bytes that are not bytecode seem to be.
    Seems(Likeness),
    /// Says why an ELF object has no code for the entry function.
    Fault(object::ObjectFault),
    /// Explains a rejected program, or reports where and why another input is at fault.
    Explained(String),
}

impl fmt::Display for Hint {
    ghost use Rattle.std.specs.Prelude.{Some};
    ghost use Rattle.cli_tasks.specs.Hints.{hint_text};

    ghost output = { λ hint. Some (hint_text hint) };

    fn fmt<W: fmt::Write>(&self, f: &mut fmt::Formatter<W>) -> fmt::Result {
        match self {
            Hint::Seems(likeness) => write!(f, "\n{likeness}"),
            Hint::Fault(fault) => {
                f.write_str("\n")?;
                f.write_str(object::sentence(*fault))
            }
            Hint::Explained(text) => f.write_str(text.as_str()),
        }
    }
}

impl Hint {
    ghost use Rattle.std.specs.Prelude.{◌≡◌, option_map};
    ghost use Rattle.cli_tasks.specs.Seeming.{seems_at_first};
    ghost use Rattle.cli_tasks.specs.declared.hint.Hint.TheVariants.{Seems};

    /// Returns a hint that says what bytes which are not bytecode seem to be: hex, an ELF object or text. Returns
    /// `None` if they seem to be none of these.
    pub(crate) fn of_bytes(bytes: &[u8]) -> Option<Hint>
        ensures { result ≡ option_map Seems (seems_at_first bytes.now) }
    {
        match seems(bytes) {
            Some(likeness) => Some(Hint::Seems(likeness)),
            None => None,
        }
    }
}
