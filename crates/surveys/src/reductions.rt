//! Removes a traitor or a statement from a broken campaign, if the campaign stays broken.
ghost use Rattle.std.specs.Prelude.{◌≡◌, ◌≢◌, ◌<◌, IfErr, IfOk, IfSome, IfNone, length};
ghost use Rattle.scenario.specs.declared.fault.ScenarioError.TheVariants.{Memory};
ghost use Rattle.surveys.specs.Shrinking.{AllLiesAreNeeded, Comes, ComesWell, IsBroken, IsPartOf, IsRefusedOf, IsStillBroken, IsWithoutFirst, IsWithoutFirstLie, IsWithoutFirstLieOf, IsWithoutFirstTraitor, LieWalk, LieWalks, LiesAreNeeded, TraitorWalk, TraitorsAreNeeded, traitor_at, without_lie, without_traitor};
ghost use Rattle.surveys.specs.Judging.{IsRefused};
ghost use Rattle.surveys.specs.Wording.{plot_text};

use crate::copies::copied;
use crate::judgement::verdict_on;
use crate::plot::Plot;
use crate::scenario_text::plot_text;
use crate::summation::is_sound;
use scenario::ScenarioError;
use std::alloc::{AllocError, Global};

/// Returns the campaign with the traitor at index `place` made loyal.
fn without_traitor(alloc: Global, plot: &Plot, place: usize) -> Result<Plot, AllocError>
    requires { place < length plot.now.traitors }
    ensures { IfOk result (λ less. less ≡ without_traitor plot.now place) }
{
    let mut less = copied(alloc, plot)?;
    let _ = less.traitors.remove(place);
    Ok(less)
}

/// Returns the campaign without the statement at index `index` of the traitor at index `place`.
fn without_lie(alloc: Global, plot: &Plot, place: usize, index: usize) -> Result<Plot, AllocError>
    requires place { place < length plot.now.traitors }
    requires index { index < length (traitor_at plot.now place).lies }
    ensures { IfOk result (λ less. less ≡ without_lie plot.now place index) }
{
    let mut less = copied(alloc, plot)?;
    let _ = less.traitors[place].lies.remove(index);
    Ok(less)
}

/// Plays a campaign, and checks whether its loyal lieutenants decide alike and obey a loyal commander.
pub(crate) fn comes_well(alloc: Global, plot: &Plot) -> Result<bool, ScenarioError>
    ensures comes { IfOk result (λ well. Comes well plot.now) }
    ensures refused { IfErr result (λ e. e ≢ Memory → IsRefused (plot_text plot.now) e) }
{
    let text = plot_text(alloc, plot)?;
    let verdict = verdict_on(alloc, text.as_str())?;
    Ok(is_sound(verdict))
}

/// Returns the campaign with the traitor at index `place` made loyal if it is still broken, and otherwise `None`.
fn less_traitor(alloc: Global, plot: &Plot, place: usize) -> Result<Option<Plot>, ScenarioError>
    requires { place < length plot.now.traitors }
    ensures some { IfOk result (λ less. IfSome less (IsStillBroken plot.now)) }
    ensures exact { IfOk result (λ less. IfSome less (λ q. q ≡ without_traitor plot.now place)) }
    ensures none { IfOk result (λ less. IfNone less (ComesWell (without_traitor plot.now place))) }
    ensures refused { IfErr result (λ e. e ≢ Memory → IsRefusedOf plot.now e) }
{
    let less = without_traitor(alloc, plot, place)?;
    if comes_well(alloc, &less)? {
        return Ok(None);
    }
    Ok(Some(less))
}

/// Returns the campaign without the statement at index `index` of the traitor at index `place` if it is still broken,
/// and otherwise `None`.
fn less_lie(
    alloc: Global,
    plot: &Plot,
    place: usize,
    index: usize,
) -> Result<Option<Plot>, ScenarioError>
    requires place { place < length plot.now.traitors }
    requires index { index < length (traitor_at plot.now place).lies }
    ensures some { IfOk result (λ less. IfSome less (IsStillBroken plot.now)) }
    ensures exact { IfOk result (λ less. IfSome less (λ q. q ≡ without_lie plot.now place index)) }
    ensures none { IfOk result (λ less. IfNone less (ComesWell (without_lie plot.now place index))) }
    ensures refused { IfErr result (λ e. e ≢ Memory → IsRefusedOf plot.now e) }
{
    let less = without_lie(alloc, plot, place, index)?;
    if comes_well(alloc, &less)? {
        return Ok(None);
    }
    Ok(Some(less))
}

/// Returns the campaign with the first traitor made loyal that it does not need to stay broken, or `None` if it needs
/// all traitors.
fn fewer_traitors(alloc: Global, plot: &Plot) -> Result<Option<Plot>, ScenarioError>
    ensures some { IfOk result (λ less. IfSome less (IsStillBroken plot.now)) }
    ensures first { IfOk result (λ less. IfSome less (IsWithoutFirstTraitor plot.now)) }
    ensures none { IfOk result (λ less. IfNone less (TraitorsAreNeeded plot.now)) }
    ensures refused { IfErr result (λ e. e ≢ Memory → IsRefusedOf plot.now e) }
{
    for place in 0..plot.traitors.len() {
        match less_traitor(alloc, plot, place)? {
            Some(less) => return Ok(Some(less)),
            None => {}
        }
    }
    Ok(None)
}

/// Removes the first statement of the traitor at index `place` that the campaign does not need to stay broken. Returns
/// the campaign that remains, or `None` if it needs all of this traitor's statements.
fn fewer_lies_of(alloc: Global, plot: &Plot, place: usize) -> Result<Option<Plot>, ScenarioError>
    requires { place < length plot.now.traitors }
    ensures some { IfOk result (λ less. IfSome less (IsStillBroken plot.now)) }
    ensures first { IfOk result (λ less. IfSome less (IsWithoutFirstLieOf plot.now place)) }
    ensures none { IfOk result (λ less. IfNone less (LiesAreNeeded plot.now place)) }
    ensures refused { IfErr result (λ e. e ≢ Memory → IsRefusedOf plot.now e) }
{
    for index in 0..plot.traitors[place].lies.len() {
        match less_lie(alloc, plot, place, index)? {
            Some(less) => return Ok(Some(less)),
            None => {}
        }
    }
    Ok(None)
}

/// Removes the first statement that the campaign does not need to stay broken. Returns the campaign that remains, or
/// `None` if it needs all statements.
fn fewer_lies(alloc: Global, plot: &Plot) -> Result<Option<Plot>, ScenarioError>
    ensures some { IfOk result (λ less. IfSome less (IsStillBroken plot.now)) }
    ensures first { IfOk result (λ less. IfSome less (IsWithoutFirstLie plot.now)) }
    ensures none { IfOk result (λ less. IfNone less (AllLiesAreNeeded plot.now)) }
    ensures refused { IfErr result (λ e. e ≢ Memory → IsRefusedOf plot.now e) }
{
    for place in 0..plot.traitors.len() {
        match fewer_lies_of(alloc, plot, place)? {
            Some(less) => return Ok(Some(less)),
            None => {}
        }
    }
    Ok(None)
}

/// Removes the first traitor that the campaign does not need to stay broken, or, if it needs all traitors, the first
/// such statement. Returns the campaign that remains, or `None` if it needs everything.
pub(crate) fn less(alloc: Global, plot: &Plot) -> Result<Option<Plot>, ScenarioError>
    ensures some { IfOk result (λ less. IfSome less (IsStillBroken plot.now)) }
    ensures first { IfOk result (λ less. IfSome less (IsWithoutFirst plot.now)) }
    ensures traitors { IfOk result (λ less. IfNone less (TraitorsAreNeeded plot.now)) }
    ensures lies { IfOk result (λ less. IfNone less (AllLiesAreNeeded plot.now)) }
    ensures refused { IfErr result (λ e. e ≢ Memory → IsRefusedOf plot.now e) }
{
    let fewer = fewer_traitors(alloc, plot)?;
    if fewer.is_some() {
        return Ok(fewer);
    }
    fewer_lies(alloc, plot)
}

/// Goes once through the traitors of a broken campaign, in order, and removes each one that it does not need to stay
/// broken. Returns the campaign that remains.
pub(crate) fn fewest_traitors(alloc: Global, plot: Plot) -> Result<Plot, ScenarioError>
    requires { IsBroken plot }
    ensures broken { IfOk result IsBroken }
    ensures part { IfOk result (IsPartOf plot) }
    ensures walk { IfOk result (λ left. TraitorWalk left 0 plot) }
    ensures refused { IfErr result (λ e. e ≢ Memory → IsRefusedOf plot e) }
{
    let mut left = plot;
    let mut place = 0;
    while place < left.traitors.len() {
        match less_traitor(alloc, &left, place)? {
            Some(less) => left = less,
            None => place += 1,
        }
    }
    Ok(left)
}

/// Goes once through the statements of the traitor at index `place`, in order, and removes each one that the campaign
/// does not need to stay broken. Returns the campaign that remains.
fn fewest_lies_of(alloc: Global, plot: Plot, place: usize) -> Result<Plot, ScenarioError>
    requires place { place < length plot.traitors }
    requires broken { IsBroken plot }
    ensures broken { IfOk result IsBroken }
    ensures part { IfOk result (IsPartOf plot) }
    ensures walk { IfOk result (λ left. LieWalk place left 0 plot) }
    ensures refused { IfErr result (λ e. e ≢ Memory → IsRefusedOf plot e) }
{
    let mut left = plot;
    let mut index = 0;
    while index < left.traitors[place].lies.len() {
        match less_lie(alloc, &left, place, index)? {
            Some(less) => left = less,
            None => index += 1,
        }
    }
    Ok(left)
}

/// Goes once through the statements of all traitors of a broken campaign, in order, and removes each one that it does
/// not need to stay broken. Returns the campaign that remains.
pub(crate) fn fewest_lies(alloc: Global, plot: Plot) -> Result<Plot, ScenarioError>
    requires { IsBroken plot }
    ensures broken { IfOk result IsBroken }
    ensures part { IfOk result (IsPartOf plot) }
    ensures walk { IfOk result (λ left. LieWalks left 0 plot) }
    ensures refused { IfErr result (λ e. e ≢ Memory → IsRefusedOf plot e) }
{
    let mut left = plot;
    for place in 0..left.traitors.len() {
        left = fewest_lies_of(alloc, left, place)?;
    }
    Ok(left)
}
