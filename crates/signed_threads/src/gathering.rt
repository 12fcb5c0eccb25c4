//! Arranges the letters of a signed campaign by round, and checks that a ledger accounts for them.
ghost use Rattle.std.specs.Prelude.{◌≡◌, ◌≢◌, IfOk, OnOk, IfErr};
ghost use Rattle.signed.specs.Kind.{signed_kind};
ghost use Rattle.threads.specs.declared.error.MusterError.TheVariants.{Unaccounted, Spawn, Post};
ghost use Rattle.world.specs.KindAccounted.{rounds_of, IsAccounted};

use crate::delivered_chains::DeliveredChains;
use board::Access;
use round::{Letter, Round, Scenario};
use std::alloc::Global;
use threads::{MusterError, gather_as};

/// Returns the letters by round, and within a round by general, if the ledger accounts for them. Then there is exactly
/// one letter for each general and round. Each letter has its general's program, and the context and the relay that
/// result from the letters of the earlier rounds. A loyal general's letter sends the chains that SM(m) has him sign.
/// Each traitor's activation has ended. The ledger contains exactly the accesses in the letters, round by round.
///
/// # Errors
///
/// `Memory` if an allocation fails, otherwise `Unaccounted` exactly if the ledger does not account for the letters.
pub fn gather_signed(
    alloc: Global,
    scenario: &Scenario,
    ledger: &[Access],
    letters: Vec<Letter>,
) -> Result<Vec<Round>, MusterError>
    ensures rows { IfOk result (λ rows. rows.items ≡ rounds_of scenario.now letters.items) }
    ensures accounted { OnOk result (IsAccounted signed_kind scenario.now ledger.now letters.items) }
    ensures unaccounted { IfErr result
        (λ e. e ≡ Unaccounted → ¬ IsAccounted signed_kind scenario.now ledger.now letters.items) }
    ensures started { IfErr result (λ e. e ≢ Spawn) }
    ensures posted { IfErr result (λ e. e ≢ Post) }
{
    gather_as::<DeliveredChains>(alloc, scenario, ledger, letters)
}
