//! Reduces a broken campaign until nothing more can be removed from it.
ghost use Rattle.std.specs.Prelude.{◌≢◌, IfErr, IfOk, IfSome, IfNone};
ghost use Rattle.scenario.specs.declared.fault.ScenarioError.TheVariants.{Memory};
ghost use Rattle.surveys.specs.Shrinking.{ComesWell, IsBroken, IsLeast, IsPartOf, IsRefusedOf, IsWalked, ShrinksTo};

use crate::plot::Plot;
use crate::reductions::{comes_well, fewest_lies, fewest_traitors, less};
use scenario::ScenarioError;
use std::alloc::Global;

/// Goes once through the traitors of a broken campaign and then once through their statements. It removes each one that
/// the campaign does not need to stay broken, and returns the campaign that remains.
fn walked(alloc: Global, plot: Plot) -> Result<Plot, ScenarioError>
    requires { IsBroken plot }
    ensures broken { IfOk result IsBroken }
    ensures part { IfOk result (IsPartOf plot) }
    ensures walk { IfOk result (IsWalked plot) }
    ensures refused { IfErr result (λ e. e ≢ Memory → IsRefusedOf plot e) }
{
    let fewer = fewest_traitors(alloc, plot)?;
    fewest_lies(alloc, fewer)
}

/// Reduces a broken campaign: one in which the loyal lieutenants do not decide alike or do not obey a loyal commander.
/// Traitors and statements are removed one by one while the campaign stays broken, until it needs all that remain.
/// Returns `None` if the campaign is not broken.
///
/// # Errors
///
/// Returns the first fault of the campaign's text or of a reduction's text, or `Memory` if it runs out of memory.
pub fn shrunk(alloc: Global, plot: Plot) -> Result<Option<Plot>, ScenarioError>
    ensures least { IfOk result (λ left. IfSome left IsLeast) }
    ensures part { IfOk result (λ left. IfSome left (IsPartOf plot)) }
    ensures course { IfOk result (λ left. IfSome left (λ q. ShrinksTo q plot)) }
    ensures whole { IfOk result (λ left. IfSome left (λ _. IsBroken plot)) }
    ensures well { IfOk result (λ left. IfNone left (ComesWell plot)) }
    ensures refused { IfErr result (λ e. e ≢ Memory → IsRefusedOf plot e) }
{
    if comes_well(alloc, &plot)? {
        return Ok(None);
    }
    let mut left = plot;
    while let Some(smaller) = less(alloc, &left)? {
        left = walked(alloc, smaller)?;
    }
    Ok(Some(left))
}
