//! Defines scenarios. A scenario describes a campaign: its numbers, its board, and a program for each traitor.
ghost use Rattle.std.specs.Prelude.{◌≡◌, ◌<◌, ◌≤◌, ◌+◌, length, IfOk};
ghost use Rattle.round.specs.Scenario.{IsScenario, IsPatience, program_of, is_traitor, shape_of};

use crate::scenario_facts::recall_sound;
use crate::seat::{Player, copied};
use board::recall_board;
use combine::Rule;
use label::Shape;
use std::alloc::{AllocError, Global};
use std::marker::Model;

/// The description of a campaign: its number of generals, its bound, the commander with his order, and the words that
/// the board has at first. It also has each traitor's program, the patience of an activation, and the rule by which
/// lieutenants combine orders.
#[derive(Drop)]
pub struct Scenario {
    generals: u8,
    bound: u8,
    commander: u8,
    order: u32,
    board: [u64; 64],
    programs: Vec<Player>,
    patience: Option<u32>,
    rule: Rule,
}

impl Model for Scenario {
    ghost use Rattle.round.specs.Scenario.{Scenario as ScenarioSeen, IsScenario};

    ghost Value = { ScenarioSeen };

    ghost view = { λ s. record {
      generals = s.generals;
      bound = s.bound;
      commander = s.commander;
      order = s.order;
      board = s.board;
      programs = s.programs.items;
      patience = s.patience;
      rule = s.rule;
    } };

    ghost invariant = { λ s. IsScenario (record {
      generals = s.generals;
      bound = s.bound;
      commander = s.commander;
      order = s.order;
      board = s.board;
      programs = s.programs.items;
      patience = s.patience;
      rule = s.rule;
    }) };
}

impl Scenario {
    /// Returns a scenario with 2 to 13 generals and one player for each, ascending. The bound is 0 to 4 and at least 2
    /// below the number of generals. An activation may take `patience` steps (1 to 4,096), or any number if `patience`
    /// is `None`.
    pub fn new(
        generals: u8,
        bound: u8,
        commander: u8,
        order: u32,
        board: [u64; 64],
        programs: Vec<Player>,
        patience: Option<u32>,
        rule: Rule,
    ) -> Scenario
        requires few { generals ≤ 13 }
        requires rounds { bound ≤ 4 }
        requires enough { bound + 2 ≤ generals }
        requires commander { commander < generals }
        requires programs { length programs.items ≡ generals }
        requires patience { IsPatience patience }
        ensures { result ≡ record {
          generals = generals;
          bound = bound;
          commander = commander;
          order = order;
          board = board;
          programs = programs.items;
          patience = patience;
          rule = rule;
        } }
    {
        recall_board(&board);
        recall_sound(programs.as_slice());
        Scenario {
            generals,
            bound,
            commander,
            order,
            board,
            programs,
            patience,
            rule,
        }
    }

    /// Returns the number of generals, 2 to 13.
    pub fn generals(&self) -> u8
        ensures same { result ≡ self.now.generals }
        ensures whole { IsScenario self.now }
    {
        self.generals
    }

    /// Returns the bound, 0 to 4: how many traitors the algorithm is to tolerate. The campaign has `bound` + 1 rounds.
    pub fn bound(&self) -> u8
        ensures same { result ≡ self.now.bound }
        ensures whole { IsScenario self.now }
    {
        self.bound
    }

    /// Returns the number of the general who is the commander.
    pub fn commander(&self) -> u8
        ensures same { result ≡ self.now.commander }
        ensures whole { IsScenario self.now }
    {
        self.commander
    }

    /// Returns the order that the commander receives as his own at the start.
    pub fn order(&self) -> u32
        ensures { result ≡ self.now.order }
    {
        self.order
    }

    /// Returns the words that the board has at first.
    pub fn board(&self) -> &[u64; 64]
        ensures { result.now ≡ self.now.board }
    {
        &self.board
    }

    /// Returns the player of this general, who must be below the number of generals. A traitor's player has a program.
    pub fn seat(&self, general: u8) -> &Player
        requires { general < self.now.generals }
        ensures { result.now ≡ program_of self.now general }
    {
        &self.programs[usize::from(general)]
    }

    /// Returns whether the general is a traitor, that is, whether he has a program.
    pub fn is_traitor(&self, general: u8) -> bool
        requires { general < self.now.generals }
        ensures { result ≡ is_traitor self.now general }
    {
        self.seat(general).program().is_some()
    }

    /// Returns the greatest number of steps that an activation may take, or `None` if there is no limit.
    pub fn patience(&self) -> Option<u32>
        ensures { result ≡ self.now.patience }
    {
        self.patience
    }

    /// Returns the rule by which lieutenants combine orders.
    pub fn rule(&self) -> Rule
        ensures { result ≡ self.now.rule }
    {
        self.rule
    }

    /// Returns which labels this general relays in this round (counted from 1), and to whom.
    pub fn shape(&self, general: u8, round: u8) -> Shape
        ensures same { result ≡ shape_of self.now general round }
        ensures whole { IsScenario self.now }
    {
        Shape {
            generals: u32::from(self.generals),
            commander: u32::from(self.commander),
            general: u32::from(general),
            round: u32::from(round),
        }
    }

    /// Returns a copy of the scenario.
    ///
    /// # Errors
    ///
    /// Fails with `AllocError` if there is no memory for the copy.
    pub fn copy(&self, alloc: Global) -> Result<Scenario, AllocError>
        ensures { IfOk result (λ scenario. scenario ≡ self.now) }
    {
        Ok(Scenario {
            generals: self.generals,
            bound: self.bound,
            commander: self.commander,
            order: self.order,
            board: self.board,
            programs: copied(alloc, self.programs.as_slice())?,
            patience: self.patience,
            rule: self.rule,
        })
    }
}
