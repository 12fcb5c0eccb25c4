//! Drawn campaigns, with the programs of their traitors as lists of statements.
use crate::lie::Lie;
use crate::manner::Manner;
use std::marker::Model;

/// A traitor and the statements of his program.
#[derive(Drop)]
pub struct Traitor {
    /// The traitor's number.
    pub general: u8,
    /// Whether his program first increments a count on the shared board.
    pub counts: bool,
    /// The statements of his program, in their order.
    pub lies: Vec<Lie>,
}

impl Model for Traitor {
    ghost use Rattle.surveys.specs.Plot.{Traitor as Seen};

    ghost Value = { Seen };

    ghost view = { λ t. record { general = t.general; counts = t.counts; lies = t.lies.items } };
}

/// A campaign of a survey, made from a seed. The survey's family (the generals, bounds, rule and so on that it allows)
/// says which campaigns are possible.
#[derive(Drop)]
pub struct Plot {
    /// The number of generals.
    pub generals: u8,
    /// The bound: how many traitors the algorithm must tolerate.
    pub bound: u8,
    /// The number of the general who commands.
    pub commander: u8,
    /// The commander's order.
    pub order: u8,
    /// How orders are sent.
    pub manner: Manner,
    /// How many steps a traitor may take in a round, or `None` if they are not limited.
    pub patience: Option<u32>,
    /// The bytecode of all traitors in hex, or `None` if each traitor's program is made of his statements.
    pub given: Option<String>,
    /// The traitors, ascending by number.
    pub traitors: Vec<Traitor>,
}

impl Model for Plot {
    ghost use Rattle.std.specs.Prelude.{option_map, string_bytes};
    ghost use Rattle.surveys.specs.Plot.{Plot as Seen};

    ghost Value = { Seen };

    ghost view = { λ p. record {
      generals = p.generals;
      bound = p.bound;
      commander = p.commander;
      order = p.order;
      manner = p.manner;
      patience = p.patience;
      given = option_map string_bytes p.given;
      traitors = p.traitors.items;
    } };
}
