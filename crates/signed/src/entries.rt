//! Makes the entries of a loyal general's outbox: the chains that he signs and sends by SM(m).
ghost use Rattle.std.specs.Prelude.{◌≡◌, ◌≤◌, ◌<◌, ◌++◌, ◌∷◌, [], ℕ, List, drop, length, suc};
ghost use Rattle.label.specs.Generals.{IsGenerals};
ghost use Rattle.signed.specs.Loyal.{bits_but, loyal_entries, passes};
ghost use Rattle.signed.specs.Sending.{added_by, entered_all, held_of, relay_behind, AreFirst, IsSent};
ghost use Rattle.signed.specs.Sent.{delivered};

use crate::acceptance::{accepted, add, is_among};
use crate::chain::Chain;
use crate::held_chains::Held;
use crate::sent_chains::SentRound;
use crate::sets;
use arrayvec::ArrayVec;
use outbox::Outbox;
use round::Scenario;

/// Enters into a loyal general's outbox the chains that he must sign in the round after those in `sent`. In round 1 the
/// commander signs his order. In a later round a lieutenant signs, for each order that he accepted in the round before,
/// the first chain that brought it. It allocates no memory.
pub(crate) fn enter(
    outbox: &mut Outbox,
    scenario: &Scenario,
    sent: &[SentRound],
    general: u8,
    held: &Held,
)
    requires left { length sent.now ≤ scenario.now.bound }
    requires inside { general < scenario.now.generals }
    requires sent { IsSent scenario.now sent.now }
    requires held { held.now ≡ held_of general sent.now }
    requires relay { outbox.old.relay ≡ relay_behind scenario.now sent.now general }
    requires unentered { outbox.old.entries ≡ [] }
    ensures relay { outbox.new.relay ≡ outbox.old.relay }
    ensures rows { outbox.new.rows ≡ outbox.old.rows }
    ensures entries { outbox.new.entries
        ≡ loyal_entries scenario.now.generals scenario.now.commander scenario.now.bound scenario.now.order
        (delivered sent.now) (suc (length sent.now)) general }
{
    let rounds = sent.len();
    if general != scenario.commander() {
        if rounds > 0 {
            let before = accepted(sent, rounds - 1, general);
            pass_on(outbox, held, before, scenario.generals(), rounds, general);
        }
        return;
    }
    if rounds == 0 {
        let all = others(scenario.generals(), &[general]);
        let _entered = outbox.sign(scenario.order(), all);
    }
}

/// Enters chains that a general received in round `rounds` into his outbox, to be signed by him and sent to all who
/// have not signed. For each order that is not in `before`, it enters the first chain that counts for him.
fn pass_on(
    outbox: &mut Outbox,
    held: &Held,
    before: ArrayVec<u32, 8>,
    generals: u8,
    rounds: usize,
    general: u8,
)
    requires size { generals ≤ 13 }
    requires inside { general < generals }
    requires few { length held.now.chains < 65536 }
    ensures relay { outbox.new.relay ≡ outbox.old.relay }
    ensures rows { outbox.new.rows ≡ outbox.old.rows }
    ensures entries { (seen : List ℕ) → AreFirst before.items seen →
        length (added_by rounds general seen (drop held.now.earlier held.now.chains)) ≤ 8
        → outbox.new.entries ≡ entered_all outbox.old.relay outbox.old.entries
        (passes generals rounds general held.now.earlier seen (drop held.now.earlier held.now.chains)) }
{
    let mut orders = before;
    for place in held.earlier()..held.len() {
        if let Some(chain) = held.get(place) {
            if chain.counts(rounds, general) && !is_among(orders.as_slice(), chain.order()) {
                let _entered = outbox.pass(place as u16, receivers(generals, chain, general));
                add(&mut orders, chain.order());
            }
        }
    }
}

/// Returns the generals who have not signed the chain once `general` has also signed it, as a set: bit g is set for
/// general g.
fn receivers(generals: u8, chain: &Chain, general: u8) -> u16
    requires size { generals ≤ 13 }
    requires inside { general < generals }
    ensures { result ≡ bits_but generals (chain.now.signers ++ general ∷ []) }
{
    sets::without(sets::below(generals), sets::with(chain.bits(), general))
}

/// Returns the generals below `generals` that are not in `but`, as a set: bit g is set for general g.
fn others(generals: u8, but: &[u8]) -> u16
    requires size { generals ≤ 13 }
    requires but { IsGenerals but.now }
    ensures { result ≡ bits_but generals but.now }
{
    sets::without(sets::below(generals), sets::of(but))
}
