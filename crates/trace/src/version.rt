//! Defines the versions of a chronicle's text, and chooses the one that a campaign needs.
ghost use Rattle.std.specs.Prelude.{◌≡◌};
ghost use Rattle.trace.specs.Text.{version_by};

use combine::Rule;

/// A version of the text of an oral campaign's chronicle.
#[derive(Clone, Copy, PartialEq, Eq)]
pub enum Version {
    /// `chronicle 1`: the text has neither the patience nor the rule.
    First,
    /// `chronicle 2`: the second line also has the patience and the rule.
    Second,
}

/// Returns the version that a campaign needs: the first if it has no patience and the default rule, otherwise the
/// second.
pub fn version_by(patience: Option<u32>, rule: Rule) -> Version
    ensures { result ≡ version_by patience rule }
{
    match patience {
        None if rule.is_default() => Version::First,
        None | Some(_) => Version::Second,
    }
}
