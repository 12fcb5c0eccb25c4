//! Finds the program of a strategy by its name. A strategy is a traitor's program for any campaign.
ghost use Rattle.std.specs.Prelude.{◌≡◌, IfOk, map, option_map};
ghost use Rattle.scenario.specs.Strategies.{program_among, program_named, strategy_names};

use crate::strategies::STRATEGIES;
use std::alloc::{AllocError, Global};

/// Returns the program of the first strategy with this name, or `None` if there is none. Each strategy is a name and a
/// program.
fn program_among(strategies: &[(&'static str, &'static str)], name: &str) -> Option<&'static str>
    ensures { option_map (λ program. program.now) result
        ≡ program_among name.now (map (λ strategy. (strategy.0.now, strategy.1.now)) strategies.now) }
{
    for (known, program) in strategies {
        if *known == name {
            return Some(*program);
        }
    }
    None
}

/// Returns the program of the strategy with this name, in assembly, or `None` if no strategy has it.
#[tactic(auto, unfolding(crate::specs::Strategies::program_named))]
pub(crate) fn program_named(name: &str) -> Option<&'static str>
    ensures { option_map (λ program. program.now) result ≡ program_named name.now }
{
    program_among(&STRATEGIES, name)
}

/// Returns the names of the strategies, in their order. Each strategy is a name and a program.
///
/// # Errors
///
/// Fails with `AllocError` if an allocation fails.
fn names_of(
    alloc: Global,
    strategies: &[(&'static str, &'static str)],
) -> Result<Vec<&'static str>, AllocError>
    ensures { IfOk result (λ names. map (λ name. name.now) names.items
        ≡ map (λ strategy. strategy.0.now) strategies.now) }
{
    let mut names = Vec::new(alloc);
    for (name, _) in strategies {
        names.push(*name)?;
    }
    Ok(names)
}

/// Returns the names of all strategies, in ascending order.
///
/// # Errors
///
/// Fails with `AllocError` if an allocation fails.
#[tactic(auto, unfolding(crate::specs::Strategies::strategy_names))]
pub fn strategy_names(alloc: Global) -> Result<Vec<&'static str>, AllocError>
    ensures { IfOk result (λ names. map (λ name. name.now) names.items ≡ strategy_names) }
{
    names_of(alloc, &STRATEGIES)
}
