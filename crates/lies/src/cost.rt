//! What a plan costs the traitors: the orders other than RETREAT that they send to loyal generals.
ghost use Rattle.std.specs.Prelude.{◌≡◌, ◌≤◌, ◌*◌, length};
ghost use Rattle.lies.specs.Limits.{AreCheap, most_attacks};
ghost use Rattle.lies.specs.Plans.{attacks};

use crate::choice::Choice;

/// Returns how many orders other than RETREAT traitors send to loyal generals in a plan with `relays` relays left, at
/// most 4.
pub(crate) fn total(plan: &[Choice], relays: u8) -> u32
    requires short { relays ≤ 4 }
    requires few { length plan.now ≤ 13 }
    requires cheap { AreCheap relays plan.now }
    ensures value { result ≡ attacks plan.now }
    ensures few { result ≤ 13 * most_attacks relays }
{
    let mut sum = 0;
    for choice in plan {
        sum += choice.attacks;
    }
    sum
}
