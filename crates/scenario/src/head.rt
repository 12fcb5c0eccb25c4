//! The head of a scenario: everything in it except its traitors.
use crate::messages::Messages;
use combine::Rule;
use std::marker::Model;

/// The head of a scenario: the numbers of its campaign, the rule that combines orders, and how orders are sent.
#[derive(Drop)]
pub struct Head {
    pub generals: u8,
    pub bound: u8,
    pub commander: u8,
    pub order: u32,
    pub board: [u64; 64],
    pub patience: Option<u32>,
    pub rule: Rule,
    pub messages: Messages,
}

impl Model for Head {
    ghost use Rattle.scenario.specs.Checks.{Head as Numbers, IsHeadWithin};

    ghost Value = { Numbers };

    ghost view = { λ h. record {
      generals = h.generals;
      bound = h.bound;
      commander = h.commander;
      order = h.order;
      board = h.board;
      patience = h.patience;
      rule = h.rule;
      messages = h.messages;
    } };

    ghost invariant = { λ h. IsHeadWithin h.generals h.bound h.commander h.patience };
}
