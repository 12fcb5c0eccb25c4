//! Makes the chronicle of a signed campaign whose letters are accounted for.
ghost use Rattle.std.specs.Prelude.{◌≡◌, [], suc, All};
ghost use Rattle.board.specs.Board.{IsLegal};
ghost use Rattle.signed.specs.Chronicle.{signed_chronicle_of, signed_decisions};
ghost use Rattle.signed.specs.Kind.{signed_kind};
ghost use Rattle.signed.specs.Promises.{AgreeUnderSignedBound, IsSignedVerdictOn};
ghost use Rattle.world.specs.KindLists.{IsComplete, names_in, replay_world, replayed};
ghost use Rattle.world.specs.Promises.{AreSafeThroughout, AreWhole, IsWellUnderBound};
ghost use Rattle.world.specs.Safety.{IsShort};
ghost use Rattle.signed.specs.Logs.{IsLogOf};
ghost use Rattle.world.specs.KindAccounted.{AreAccounted};

use crate::delivered_chains::DeliveredChains;
use arrayvec::ArrayVec;
use board::Access;
use round::{Round, Scenario};
use signed::SignedChronicle;

/// Returns the chronicle of a signed campaign: its accesses, its letters by round, the chains that they have sent, and
/// the lieutenants' decisions. The accesses must account for the letters, so the chronicle is the same as that of the
/// replay of the accesses.
pub(crate) fn conclude(
    scenario: Scenario,
    accesses: Vec<Access>,
    rounds: Vec<Round>,
    told: DeliveredChains,
    decisions: ArrayVec<u32, 12>,
) -> SignedChronicle
    requires legal { IsLegal scenario.board accesses.items }
    requires accounted { AreAccounted signed_kind scenario [] accesses.items rounds.items }
    requires told { IsLogOf scenario rounds.items told.log }
    requires decisions { decisions.items ≡ signed_decisions scenario rounds.items }
    ensures scenario { result.scenario ≡ scenario }
    ensures accesses { result.accesses ≡ accesses.items }
    ensures letters { result.letters ≡ rounds.items }
    ensures replay { result ≡ signed_chronicle_of (replay_world signed_kind scenario result.accesses) }
    ensures complete { IsComplete signed_kind scenario
        (replayed signed_kind scenario (names_in 1 result.accesses (suc scenario.bound))) }
    ensures legal { IsLegal scenario.board result.accesses }
    ensures safe { AreSafeThroughout signed_kind scenario
        (replayed signed_kind scenario (names_in 1 result.accesses (suc scenario.bound))) }
    ensures whole { AreWhole signed_kind scenario result.accesses result.letters }
    ensures short { All (λ letters. All IsShort letters) result.letters }
    ensures decisions { result.decisions ≡ signed_decisions scenario result.letters }
    ensures agree { AgreeUnderSignedBound scenario result.decisions }
    ensures verdict { IsSignedVerdictOn scenario result.decisions result.verdict }
    ensures well { IsWellUnderBound result.verdict }
{
    scenario.recall();
    let DeliveredChains { log } = told;
    SignedChronicle::of(scenario, accesses, rounds, decisions, log)
}
