//! Arranges the letters of a campaign by round, and checks that a ledger accounts for them.
ghost use Rattle.std.specs.Prelude.{◌≡◌, ◌≢◌, suc, length, IfOk, OnOk, IfErr, MatchOption};
ghost use Rattle.round.specs.Origin.{AreRoundsOf};
ghost use Rattle.world.specs.Accounted.{rounds_of, IsAccounted};
ghost use Rattle.world.specs.KindAccounted.{IsAccounted as IsAccountedOf};
ghost use Rattle.threads.specs.declared.error.MusterError.TheVariants.{Unaccounted, Spawn, Post};

use crate::account::are_accounted;
use crate::answers::{accounted, found};
use crate::arrangement::arrange;
use crate::delivered::Delivered;
use crate::error::MusterError;
use board::Access;
use round::{Letter, Received, Round, Scenario, are_letters_of};
use std::alloc::{AllocError, Global};

/// Returns the letters by round, and within a round by general, if the ledger accounts for them. Then there is exactly
/// one letter for each general and round. Each letter has its general's program, and the context that results from the
/// letters of the earlier rounds. Each traitor's activation has ended. The ledger contains exactly the accesses in the
/// letters, round by round.
///
/// # Errors
///
/// `Memory` if an allocation fails, otherwise `Unaccounted` exactly if the ledger does not account for the letters.
pub fn gather(
    alloc: Global,
    scenario: &Scenario,
    ledger: &[Access],
    letters: Vec<Letter>,
) -> Result<Vec<Round>, MusterError>
    ensures rows { IfOk result (λ rows. rows.items ≡ rounds_of scenario.now letters.items) }
    ensures accounted { OnOk result (IsAccounted scenario.now ledger.now letters.items) }
    ensures unaccounted { IfErr result (λ e. e ≡ Unaccounted → ¬ IsAccounted scenario.now ledger.now letters.items) }
    ensures started { IfErr result (λ e. e ≢ Spawn) }
    ensures posted { IfErr result (λ e. e ≢ Post) }
{
    gather_as::<Received>(alloc, scenario, ledger, letters)
}

/// Returns the letters of an oral or of a signed campaign by round, within a round ascending by general, if the ledger
/// accounts for them. `gather` does this for an oral campaign.
///
/// # Errors
///
/// The errors are those of `gather`.
pub fn gather_as<D: Delivered>(
    alloc: Global,
    scenario: &Scenario,
    ledger: &[Access],
    letters: Vec<Letter>,
) -> Result<Vec<Round>, MusterError>
    ensures rows { IfOk result (λ rows. rows.items ≡ rounds_of scenario.now letters.items) }
    ensures accounted { OnOk result (IsAccountedOf D.kind scenario.now ledger.now letters.items) }
    ensures unaccounted { IfErr result
        (λ e. e ≡ Unaccounted → ¬ IsAccountedOf D.kind scenario.now ledger.now letters.items) }
    ensures started { IfErr result (λ e. e ≢ Spawn) }
    ensures posted { IfErr result (λ e. e ≢ Post) }
{
    let generals = u32::from(scenario.generals());
    let rounds = u32::from(scenario.bound()) + 1;
    let rows = found(arrange(alloc, letters, generals, rounds)?)?;
    let told = found(deliver_all::<D>(alloc, scenario, rows.as_slice())?)?;
    let are_accounted = are_accounted(alloc, &told, scenario, rows.as_slice(), 0, ledger)?;
    accounted(are_accounted)?;
    Ok(rows)
}

/// Delivers the letters of all rounds, and returns what they have delivered. Returns `None` if some element of `rows`
/// is not the letters of its round, one for each general.
///
/// # Errors
///
/// `AllocError` if an allocation fails.
fn deliver_all<D: Delivered>(
    alloc: Global,
    scenario: &Scenario,
    rows: &[Round],
) -> Result<Option<D>, AllocError>
    requires { length rows.now ≡ suc scenario.now.bound }
    ensures { IfOk result (λ o.
        MatchOption o (¬ AreRoundsOf scenario.now rows.now) (D.was_told scenario.now rows.now)) }
{
    let mut told = D::begin(alloc, scenario)?;
    for row in rows {
        let round = u32::from(told.rounds()) + 1;
        if !are_letters_of(scenario, round, row.letters()) {
            return Ok(None);
        }
        told.add(alloc, scenario, row.letters())?;
    }
    Ok(Some(told))
}
