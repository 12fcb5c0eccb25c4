//! Computes the decisions of a message table's lieutenants from their trees.
ghost use Rattle.std.specs.Prelude.{◌≡◌, ◌≢◌, ◌<◌};
ghost use Rattle.book.specs.Decisions.{decision_of, decisions_of, TableAgrees};

use crate::message_source::Heard;
use crate::table::Table;
use crate::theorem::agreement;
use arrayvec::ArrayVec;
use resolve::resolve;

/// Returns the decision of a lieutenant by OM(m), with the table's rule (TOPLAS 1982).
#[tactic(auto, unfolding(crate::specs::Decisions::decision_of))]
pub fn decision<H: Heard>(table: &H, general: u8) -> u32
    requires general { general < (H.seen table.now).generals }
    requires lieutenant { general ≢ (H.seen table.now).commander }
    ensures { result ≡ decision_of (H.seen table.now) general }
{
    resolve(table.tree(general), &table.rule())
}

/// Returns the decisions of the lieutenants, in ascending order of the lieutenants. The contract includes the agreement
/// theorem: the loyal lieutenants decide alike if the bound holds and each loyal general sends on the order that he
/// took.
pub fn decisions(table: &Table) -> ArrayVec<u32, 12>
    ensures values { result.items ≡ decisions_of table.now }
    ensures agree { TableAgrees table.now result.items }
{
    agreement();
    let generals = table.generals();
    let commander = table.commander();
    let mut decisions = ArrayVec::new();
    for general in 0..generals {
        if general != commander {
            decisions.push(decision(table, general));
        }
    }
    decisions
}
