//! Finds the cheapest plan by which traitors bring about decisions.
ghost use Rattle.std.specs.Prelude.{◌≡◌, ◌≤◌, ◌+◌, ◌++◌, IfSome, length};
ghost use Rattle.label.specs.Labels.{on};
ghost use Rattle.lies.specs.Limits.{AreCheap};
ghost use Rattle.lies.specs.Plans.{choices_of, items_of, plan, without};

use crate::aim::Aims;
use crate::choice::Choice;
use crate::cost::total;
use crate::generals::{is_among, without};
use crate::last_plan::last_plan;
use crate::selection::cheapest;
use crate::sender::Sender;
use crate::votes::{all_votes, may_cast, next_aims};
use arrayvec::ArrayVec;
use combine::Combine;

/// Returns the cheapest plan to meet the aims about a label with `relays` relays left, at most 4, or `None` if no
/// messages of the traitors meet them. The cheapest plan has the fewest orders other than RETREAT that traitors send to
/// loyal generals.
///
/// `off` are the generals off the label, at most 12. `sender` is the last general of the label.
#[cycle(plan)]
pub(crate) fn plan<C: Combine>(
    rule: &C,
    traitors: &[u8],
    relays: u8,
    off: &[u8],
    sender: Sender,
    aims: &Aims,
) -> Option<ArrayVec<Choice, 13>>
    requires few { length off.now ≤ 12 }
    requires short { relays ≤ 4 }
    ensures plan { items_of result
        ≡ plan (C.combined rule.now) (on traitors.now) relays off.now sender aims.now }
    ensures cheap { IfSome result (λ p. AreCheap relays p.items) }
{
    if relays == 0 {
        return last_plan(off, sender, aims);
    }
    let mut choices: ArrayVec<Choice, 96> = ArrayVec::new();
    for general in off {
        push_choices(
            &mut choices,
            rule,
            traitors,
            relays - 1,
            off,
            sender,
            aims,
            *general,
        );
    }
    let mut begun = ArrayVec::new();
    cheapest(rule, aims, off, choices.as_slice(), relays, &mut begun)
}

/// Appends the choices for one general off a label, at most 8. `relays` relays are left for the label that he extends.
#[cycle(plan)]
fn push_choices<C: Combine>(
    choices: &mut ArrayVec<Choice, 96>,
    rule: &C,
    traitors: &[u8],
    relays: u8,
    off: &[u8],
    sender: Sender,
    aims: &Aims,
    general: u8,
)
    requires few { length off.now ≤ 12 }
    requires short { relays ≤ 3 }
    requires room { length choices.old.items ≤ 88 }
    ensures pushed { choices.new.items ≡ choices.old.items ++ choices_of
        (λ s a. plan (C.combined rule.now) (on traitors.now) relays (without off.now general) s a) sender
        (on traitors.now) aims.now general }
    ensures long { length choices.new.items ≤ length choices.old.items + 8 }
    ensures cheap { AreCheap (relays + 1) choices.old.items → AreCheap (relays + 1) choices.new.items }
{
    let rest = without(off, general);
    let votes = all_votes();
    for vote in &votes {
        if may_cast(sender, traitors, aims, general, vote) {
            let next = Sender::of(is_among(traitors, general), vote.taken);
            let aims = next_aims(aims, general, vote);
            if let Some(below) = plan(rule, traitors, relays, rest.as_slice(), next, &aims) {
                choices.push(Choice {
                    general,
                    vote: *vote,
                    attacks: sender.attacks(vote.taken) + total(below.as_slice(), relays),
                });
            }
        }
    }
}
