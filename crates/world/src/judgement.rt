//! Judges the lieutenants' decisions.
ghost use Rattle.std.specs.Prelude.{◌≡◌, ◌<◌, ◌*◌, ◌++◌, ◌==◌, ◌&&◌, length, cond, None, Some, count_by, nat_lt, nat_le, slice_get};
ghost use Rattle.std.specs.List.{list_all};
ghost use Rattle.label.specs.Labels.{generals};
ghost use Rattle.book.specs.Conditions.{are_alike};
ghost use Rattle.label.specs.Lieutenants.{lieutenants};
ghost use Rattle.round.specs.Scenario.{is_traitor};
ghost use Rattle.world.specs.Chronicle.{counted, of_loyal, verdict_of};

use crate::verdict::Verdict;
use arrayvec::ArrayVec;
use round::Scenario;

/// Returns the verdict on the lieutenants' decisions, which are given ascending by lieutenant.
pub(crate) fn verdict(scenario: &Scenario, decisions: &[u32]) -> Verdict
    ensures { result ≡ verdict_of scenario.now decisions.now }
{
    let loyal = loyal_decisions(scenario, decisions);
    Verdict {
        alike: alike(loyal.as_slice()),
        obeyed: obeyed(scenario, loyal.as_slice()),
        bound: is_bound(scenario),
    }
}

/// Returns whether all these decisions of loyal lieutenants are the same. It is true for an empty list.
pub fn alike(loyal: &[u32]) -> bool
    ensures { result ≡ are_alike loyal.now }
{
    match loyal.split_first() {
        Some((first, rest)) => are_all(rest, *first),
        None => true,
    }
}

/// Returns whether each of these decisions is this order.
fn are_all(decisions: &[u32], order: u32) -> bool
    ensures { result ≡ list_all (λ d. d == order) decisions.now }
{
    decisions.iter().all(|decision| *decision == order)
}

/// Returns whether each of these decisions of loyal lieutenants is the commander's order. Returns `None` if the
/// commander is a traitor.
pub fn obeyed(scenario: &Scenario, loyal: &[u32]) -> Option<bool>
    ensures { result ≡ cond (is_traitor scenario.now scenario.now.commander) None
        (Some (list_all (λ d. d == scenario.now.order) loyal.now)) }
{
    if scenario.is_traitor(scenario.commander()) {
        return None;
    }
    Some(are_all(loyal, scenario.order()))
}

/// Returns whether the bound holds: there are more generals than three times the bound, and at most as many traitors as
/// the bound.
fn is_bound(scenario: &Scenario) -> bool
    ensures { result ≡ (nat_lt (3 * scenario.now.bound) scenario.now.generals
        && nat_le (count_by (is_traitor scenario.now) (generals scenario.now.generals)) scenario.now.bound) }
{
    let bound = scenario.bound();
    3 * bound < scenario.generals() && traitors(scenario) <= bound
}

/// Returns the number of traitors among the generals.
pub fn traitors(scenario: &Scenario) -> u8
    ensures { result ≡ count_by (is_traitor scenario.now) (generals scenario.now.generals) }
{
    let mut traitors = 0;
    for general in 0..scenario.generals() {
        if scenario.is_traitor(general) {
            traitors += 1;
        }
    }
    traitors
}

/// Returns the decisions of only the loyal lieutenants, ascending by lieutenant. `decisions` are those of all
/// lieutenants, in the same order.
pub fn loyal_decisions(scenario: &Scenario, decisions: &[u32]) -> ArrayVec<u32, 13>
    ensures { result.items ≡ of_loyal scenario.now
        (lieutenants scenario.now.generals scenario.now.commander) decisions.now }
{
    let mut loyal = ArrayVec::new();
    let mut place = 0;
    for general in 0..scenario.generals() {
        if general != scenario.commander() {
            count(&mut loyal, scenario, decisions, general, place);
            place += 1;
        }
    }
    loyal
}

/// Appends the decision of lieutenant `general` to `loyal` if he is loyal. `place` is the index of his decision in
/// `decisions`.
fn count(
    loyal: &mut ArrayVec<u32, 13>,
    scenario: &Scenario,
    decisions: &[u32],
    general: u8,
    place: usize,
)
    requires room { length loyal.old.items < 13 }
    requires inside { general < scenario.now.generals }
    ensures { loyal.new.items ≡ loyal.old.items ++ counted scenario.now general (slice_get decisions.now place) }
{
    if let Some(decision) = decisions.get(place) {
        if !scenario.is_traitor(general) {
            loyal.push(*decision);
        }
    }
}
