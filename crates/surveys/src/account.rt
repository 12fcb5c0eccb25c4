//! The account of one campaign in a survey: its result, its order, its traitors and the decisions.
use crate::finding::Finding;
use std::marker::Model;

/// The account of the campaign that a seed draws: its result, the commander's order, the traitors and the decisions.
#[derive(Drop)]
pub struct Account {
    /// The result of the campaign.
    pub finding: Finding,
    /// The commander's order.
    pub order: u32,
    /// The numbers of the traitors, ascending.
    pub traitors: Vec<u32>,
    /// The decisions of the lieutenants, in ascending order of the lieutenants' numbers.
    pub decisions: Vec<u32>,
}

impl Model for Account {
    ghost use Rattle.surveys.specs.Account.{Account as Seen};

    ghost Value = { Seen };

    ghost view = { λ a. record {
      finding = a.finding;
      order = a.order;
      traitors = a.traitors.items;
      decisions = a.decisions.items;
    } };
}
