//! Families of campaigns. A family says what campaigns a survey makes from seeds.
ghost use Rattle.std.specs.Prelude.{◌≡◌, SomeIff, IfSome};

use crate::adversary::Adversary;
use crate::manner::Manner;
use crate::span::CountRange;
use std::marker::Model;

/// A family of campaigns: the ranges of generals, bounds and traitors, who commands, the greatest order, how orders
/// are sent, and what traitors do.
#[derive(Drop)]
pub struct Family {
    generals: CountRange,
    bound: CountRange,
    traitors: CountRange,
    commander: u8,
    orders: u8,
    grid: bool,
    manner: Manner,
    patience: Option<u32>,
    adversary: Adversary,
}

impl Model for Family {
    ghost use Rattle.surveys.specs.Family.{Family as Seen, IsFamily};

    ghost Value = { Seen };

    ghost view = { λ f. record {
      generals = f.generals;
      bound = f.bound;
      traitors = f.traitors;
      commander = f.commander;
      orders = f.orders;
      grid = f.grid;
      manner = f.manner;
      patience = f.patience;
      adversary = f.adversary;
    } };

    ghost invariant = { λ f. IsFamily (record {
      generals = f.generals;
      bound = f.bound;
      traitors = f.traitors;
      commander = f.commander;
      orders = f.orders;
      grid = f.grid;
      manner = f.manner;
      patience = f.patience;
      adversary = f.adversary;
    }) };
}

impl Family {
    ghost use Rattle.surveys.specs.Family.{Family as Seen, IsFamily};

    /// Returns a family of campaigns. It has ranges for the number of generals (2 to 13), the bound and the number of
    /// traitors. A seed draws a number from each. If `grid` is true, consecutive seeds instead go through all
    /// combinations, and change the number of generals fastest. A bound is cut to 4 and to the number of generals less
    /// 2, and a number of traitors to the number of generals. General `commander` commands, or the last general if
    /// there are not enough generals. Orders are from 0 to `orders`. A traitor may take `patience` steps, 1 to 4,096,
    /// in a round, or any number for `None`.
    pub fn new(
        generals: CountRange,
        bound: CountRange,
        traitors: CountRange,
        commander: u8,
        orders: u8,
        grid: bool,
        manner: Manner,
        patience: Option<u32>,
        adversary: Adversary,
    ) -> Family
        requires { IsFamily (record {
          generals = generals;
          bound = bound;
          traitors = traitors;
          commander = commander;
          orders = orders;
          grid = grid;
          manner = manner;
          patience = patience;
          adversary = adversary;
        }) }
        ensures { result ≡ record {
          generals = generals;
          bound = bound;
          traitors = traitors;
          commander = commander;
          orders = orders;
          grid = grid;
          manner = manner;
          patience = patience;
          adversary = adversary;
        } }
    {
        Family {
            generals,
            bound,
            traitors,
            commander,
            orders,
            grid,
            manner,
            patience,
            adversary,
        }
    }

    /// Returns the range of the number of generals.
    pub fn generals(&self) -> CountRange
        ensures same { result ≡ self.now.generals }
        ensures whole { IsFamily self.now }
    {
        self.generals
    }

    /// Returns the range of the bound.
    pub fn bound(&self) -> CountRange
        ensures same { result ≡ self.now.bound }
        ensures whole { IsFamily self.now }
    {
        self.bound
    }

    /// Returns the range of the number of traitors.
    pub fn traitors(&self) -> CountRange
        ensures same { result ≡ self.now.traitors }
        ensures whole { IsFamily self.now }
    {
        self.traitors
    }

    /// Returns the number of the general who commands. In a campaign with too few generals the last one commands
    /// instead.
    pub fn commander(&self) -> u8
        ensures { result ≡ self.now.commander }
    {
        self.commander
    }

    /// Returns the greatest order. Orders are from 0 to this number.
    pub fn orders(&self) -> u8
        ensures { result ≡ self.now.orders }
    {
        self.orders
    }

    /// Returns whether consecutive seeds go through all combinations of the ranges. If not, each seed draws at random.
    pub fn grid(&self) -> bool
        ensures { result ≡ self.now.grid }
    {
        self.grid
    }

    /// Returns how orders are sent: orally, with the rule by which they are combined, or signed.
    pub fn manner(&self) -> Manner
        ensures { result ≡ self.now.manner }
    {
        self.manner
    }

    /// Returns how many steps a traitor may take in a round, or `None` if they are not limited.
    pub fn patience(&self) -> Option<u32>
        ensures { result ≡ self.now.patience }
    {
        self.patience
    }

    /// Returns what the traitors do in the campaigns of the family.
    pub fn adversary(&self) -> &Adversary
        ensures { result.now ≡ self.now.adversary }
    {
        &self.adversary
    }
}
