//! Defines the two decision rules of a campaign, majority and median, and their names.
ghost use Rattle.std.specs.Prelude.{◌≡◌};
ghost use Rattle.combine.specs.Names.{is_default, rule_named, rule_names};
ghost use Rattle.combine.specs.Outcome.{outcome_order};
ghost use Rattle.combine.specs.Rule.{combined_by, outcome_of, rule_name};
ghost use Rattle.combine.specs.Laws.{chosen_is_rule};

mod majority;
mod median;

use crate::outcome::{Outcome, by_most};
use crate::rule::Combine;
pub use majority::Majority;
pub(crate) use majority::most;
pub use median::Median;

/// The rule by which the lieutenants of a campaign combine a list of orders into one.
#[derive(Clone, Copy, PartialEq, Eq)]
pub enum Rule {
    /// The order that makes up more than half of the list, or RETREAT, 0, if there is none.
    Majority,
    /// The order in the middle of the sorted list.
    Median,
}

impl Combine for Rule {
    ghost combined = { combined_by };

    fn combine(&self, orders: &[u32]) -> u32 {
        match self {
            Rule::Majority => Majority.combine(orders),
            Rule::Median => Median.combine(orders),
        }
    }

    fn combine_told(&self, told: &[u32], place: usize, own: u32) -> u32 {
        match self {
            Rule::Majority => Majority.combine_told(told, place, own),
            Rule::Median => Median.combine_told(told, place, own),
        }
    }

    ghost most_decide = { chosen_is_rule };
}

impl Rule {
    /// All rules, in the order in which messages and help list their names.
    pub const ALL: [Rule; 2] = [Rule::Majority, Rule::Median];

    /// The rule of a campaign whose file names no rule.
    pub const DEFAULT: Rule = Rule::Majority;

    /// Returns the name of the rule, as it is written in campaign files: `majority` or `median`.
    pub fn name(self) -> &'static str
        ensures { result.now ≡ rule_name self }
    {
        match self {
            Rule::Majority => "majority",
            Rule::Median => "median",
        }
    }

    /// Returns the names of all rules, as a sentence lists them: `majority or median`.
    pub fn names() -> &'static str
        ensures { result.now ≡ rule_names }
    {
        "majority or median"
    }

    /// Combines a list of orders by the rule. Returns the resulting order, and how the rule found it.
    #[tactic(auto, using(crate::proofs::Most::agreed_order), unfolding(crate::specs::Rule::majority))]
    pub fn outcome(self, orders: &[u32]) -> Outcome
        ensures value { result ≡ outcome_of self orders.now }
        ensures order { outcome_order result ≡ combined_by self orders.now }
    {
        match self {
            Rule::Majority => by_most(orders, 0),
            Rule::Median => Outcome::Middle(Median.combine(orders)),
        }
    }

    /// Returns the rule with the name `word`, or `None` if no rule has this name.
    pub fn named(word: &[u8]) -> Option<Rule>
        ensures { result ≡ rule_named word.now }
    {
        Rule::ALL
            .iter()
            .copied()
            .find(|rule| rule.name().as_bytes() == word)
    }

    /// Checks whether the rule is `DEFAULT`, the rule of a campaign whose file names none.
    pub fn is_default(self) -> bool
        ensures { result ≡ is_default self }
    {
        matches!(self, Rule::Majority)
    }
}
