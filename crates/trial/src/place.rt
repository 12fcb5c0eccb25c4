//! Defines where in a setting something is: at a key, or at an element of an array.
ghost use Rattle.std.specs.Prelude.{◌≡◌};
ghost use Rattle.trial.specs.Names.{text_of};

use std::fmt;

/// A key that a setting may have.
#[derive(Clone, Copy, Debug, PartialEq, Eq)]
pub enum SettingKey {
    Generals,
    Bound,
    Commander,
    General,
    Round,
    Taken,
    Board,
}

impl SettingKey {
    /// Returns the text of the key.
    pub fn text(self) -> &'static str
        ensures { result.now ≡ text_of self }
    {
        match self {
            SettingKey::Generals => "generals",
            SettingKey::Bound => "bound",
            SettingKey::Commander => "commander",
            SettingKey::General => "general",
            SettingKey::Round => "round",
            SettingKey::Taken => "taken",
            SettingKey::Board => "board",
        }
    }
}

/// A place in a setting. Errors name it, such as `taken[2]`.
#[derive(Clone, Copy, Debug, PartialEq, Eq)]
pub enum SettingPlace {
    /// The value of this key.
    Key(SettingKey),
    /// The element of the array `taken` with this index.
    Order(usize),
    /// The element of the array `board` with this index.
    Word(usize),
}

impl fmt::Display for SettingPlace {
    ghost use Rattle.std.specs.Prelude.{Some};
    ghost use Rattle.trial.specs.ErrorText.{place_text};

    ghost output = { λ place. Some (place_text place) };

    fn fmt<W: fmt::Write>(&self, f: &mut fmt::Formatter<W>) -> fmt::Result {
        match *self {
            SettingPlace::Key(name) => write!(f, "{}", name.text()),
            SettingPlace::Order(index) => write!(f, "taken[{index}]"),
            SettingPlace::Word(index) => write!(f, "board[{index}]"),
        }
    }
}
