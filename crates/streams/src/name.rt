//! Displays the name of a file on one line, even if it contains control characters.
ghost use Rattle.std.specs.Prelude.{◌≡◌};
ghost use Rattle.streams.specs.Names.{has_control};

use std::fmt;

/// The name of a file, for display on one line. A name with a control character, such as a line feed, is displayed in
/// quotation marks with escapes, as a string in Rust. Any other name is displayed unchanged.
#[derive(Clone, Copy)]
pub struct FileName<'a>(pub &'a str);

impl fmt::Display for FileName<'_> {
    ghost use Rattle.streams.specs.Names.{shown};

    ghost output = { λ name. shown (name.0).now };

    fn fmt<W: fmt::Write>(&self, f: &mut fmt::Formatter<W>) -> fmt::Result {
        let name = self.0;
        if has_control(name) {
            write!(f, "{name:?}")
        } else {
            f.write_str(name)
        }
    }
}

/// Checks whether a text, such as the name of a file, contains a control character.
pub(crate) fn has_control(name: &str) -> bool
    ensures { result ≡ has_control name.now }
{
    name.chars().any(|c| c.is_control())
}
