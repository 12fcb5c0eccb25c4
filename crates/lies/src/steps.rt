//! Estimates how long the search for a break takes, so that what is beyond reach can be refused beforehand.
ghost use Rattle.std.specs.Prelude.{◌≡◌, ◌≤◌};
ghost use Rattle.lies.specs.Estimate.{commanders, orders_taken, plan_steps, sets, steps, steps_under, stored};
ghost use Rattle.lies.specs.Estimate.{steps_under_loyal, steps_under_traitor};

use crate::break_table::is_within;

/// Returns about how many steps the search for a break by at most `most` traitors takes, up to 2^64 - 1. A step is a list
/// of orders that the rule combines, or a label with no relays left. `bound` is m. All commanders are searched if none
/// is given.
///
/// It is 0 if the numbers are out of the limits of a message table. A search that finds a break ends earlier.
pub fn estimate(generals: u8, bound: u8, commander: Option<u8>, most: u8) -> u64
    ensures { result ≡ stored (steps generals bound commander most) }
{
    if !is_within(generals, bound, commander.unwrap_or(0)) {
        return 0;
    }
    let mut sum = 0u64;
    for count in 0..most.min(generals) + 1 {
        sum = sum.saturating_add(steps_under(generals, bound, count));
    }
    commanders(generals, commander).saturating_mul(sum)
}

/// Returns how many commanders are asked about.
fn commanders(generals: u8, commander: Option<u8>) -> u64
    ensures { result ≡ commanders generals commander }
{
    match commander {
        None => u64::from(generals),
        Some(_) => 1,
    }
}

/// Returns the steps for all sets of `count` traitors under one commander, up to 2^64 - 1.
fn steps_under(generals: u8, bound: u8, count: u8) -> u64
    ensures { result ≡ stored (steps_under generals bound count) }
{
    let lieutenants = generals.saturating_sub(1);
    let loyal = steps_under_loyal(bound, lieutenants, count);
    if count == 0 {
        return loyal;
    }
    loyal.saturating_add(steps_under_traitor(bound, lieutenants, count - 1))
}

/// Returns the steps for all sets of `count` traitors among the lieutenants under a loyal commander, up to 2^64 - 1.
fn steps_under_loyal(bound: u8, lieutenants: u8, count: u8) -> u64
    ensures { result ≡ stored (steps_under_loyal bound lieutenants count) }
{
    let loyals = lieutenants.saturating_sub(count);
    sets(lieutenants, count)
        .saturating_mul(2 * u64::from(loyals))
        .saturating_mul(plan_steps(2, bound, false, loyals, count))
}

/// Returns the steps for all sets of `count` traitors among the lieutenants under a commander who is a traitor, too, up
/// to 2^64 - 1.
fn steps_under_traitor(bound: u8, lieutenants: u8, count: u8) -> u64
    ensures { result ≡ stored (steps_under_traitor bound lieutenants count) }
{
    let loyals = lieutenants.saturating_sub(count);
    sets(lieutenants, count)
        .saturating_mul(u64::from(loyals).saturating_mul(u64::from(loyals)))
        .saturating_mul(plan_steps(4, bound, true, loyals, count))
}

/// Returns how many sets of `count` out of `generals` there are, up to 2^64 - 1.
#[cycle(sets)]
fn sets(generals: u8, count: u8) -> u64
    ensures { result ≡ stored (sets generals count) }
{
    if count == 0 {
        return 1;
    }
    if generals == 0 {
        return 0;
    }
    sets(generals - 1, count - 1).saturating_add(sets(generals - 1, count))
}

/// Returns the steps to find a plan with `relays` relays left, if this many loyal generals and traitors are off the
/// label, up to 2^64 - 1. `is_traitor` is whether its sender is a traitor. A general has one of `votes` votes.
#[cycle(plan_steps)]
fn plan_steps(votes: u64, relays: u8, is_traitor: bool, loyals: u8, traitors: u8) -> u64
    ensures { result ≡ stored (plan_steps votes relays is_traitor loyals traitors) }
{
    if relays == 0 {
        return 1;
    }
    let taken = orders_taken(is_traitor);
    let loyal = plan_steps(votes, relays - 1, false, loyals.saturating_sub(1), traitors);
    let traitor = plan_steps(votes, relays - 1, true, loyals, traitors.saturating_sub(1));
    let below_loyal = u64::from(loyals)
        .saturating_mul(taken.saturating_mul(votes))
        .saturating_mul(loyal);
    let below_traitor = u64::from(traitors)
        .saturating_mul(votes)
        .saturating_mul(traitor);
    let selections = taken
        .saturating_pow(u32::from(loyals))
        .saturating_mul(votes.saturating_pow(u32::from(traitors)));
    selections.saturating_add(below_loyal.saturating_add(below_traitor))
}

/// Returns how many orders a loyal general may take from the sender of a label.
fn orders_taken(is_traitor: bool) -> u64
    ensures { result ≡ orders_taken is_traitor }
{
    if is_traitor { 2 } else { 1 }
}
