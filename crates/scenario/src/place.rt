//! The keys of a scenario, and the places at which a fault can be.
ghost use Rattle.std.specs.Prelude.{◌≡◌};
ghost use Rattle.scenario.specs.Names.{text_of};

use std::fmt;

/// A key that a scenario may have, at its top or in a traitor's table.
#[derive(Clone, Copy, Debug, PartialEq, Eq)]
pub enum ScenarioKey {
    Generals,
    Bound,
    Commander,
    Order,
    Board,
    Patience,
    Rule,
    Messages,
    Traitor,
    General,
    Asm,
    Code,
    Strategy,
}

impl ScenarioKey {
    /// Returns the key as it is written in a scenario.
    pub fn text(self) -> &'static str
        ensures { result.now ≡ text_of self }
    {
        match self {
            ScenarioKey::Generals => "generals",
            ScenarioKey::Bound => "bound",
            ScenarioKey::Commander => "commander",
            ScenarioKey::Order => "order",
            ScenarioKey::Board => "board",
            ScenarioKey::Patience => "patience",
            ScenarioKey::Rule => "rule",
            ScenarioKey::Messages => "messages",
            ScenarioKey::Traitor => "traitor",
            ScenarioKey::General => "general",
            ScenarioKey::Asm => "asm",
            ScenarioKey::Code => "code",
            ScenarioKey::Strategy => "strategy",
        }
    }
}

/// A place in a scenario, where a fault is.
#[derive(Clone, Copy, Debug, PartialEq, Eq)]
pub enum ScenarioPlace {
    /// The value of this key at the top.
    Key(ScenarioKey),
    /// The word with this number, counted from 0, in the list `board`.
    Word(usize),
    /// The element with this number, counted from 0, in the list of traitors.
    Table(usize),
    /// This key in the traitor's table with this number, counted from 0.
    Entry(usize, ScenarioKey),
}

impl fmt::Display for ScenarioPlace {
    ghost use Rattle.std.specs.Prelude.{Some};
    ghost use Rattle.scenario.specs.ErrorText.{place_text};

    ghost output = { λ place. Some (place_text place) };

    fn fmt<W: fmt::Write>(&self, f: &mut fmt::Formatter<W>) -> fmt::Result {
        match *self {
            ScenarioPlace::Key(name) => write!(f, "{}", name.text()),
            ScenarioPlace::Word(index) => write!(f, "board[{index}]"),
            ScenarioPlace::Table(index) => write!(f, "traitor[{index}]"),
            ScenarioPlace::Entry(index, name) => write!(f, "traitor[{index}].{}", name.text()),
        }
    }
}
