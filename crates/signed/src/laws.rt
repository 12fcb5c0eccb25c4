//! States laws of signed campaigns. Each function does nothing, and its contract is the law.
ghost use Rattle.signed.specs.Agreement.{SignedAgreementHolds};
ghost use Rattle.signed.specs.Kind.{signed_kind};
ghost use Rattle.signed.specs.Laws.{
  AcceptedOrdersDecide,
  ChainsAreFew,
  ChainsAreUnforged,
  HeldChainsAreFew,
  SignedEntriesAreSent,
  SignedWorldsAgree,
};
ghost use Rattle.signed.specs.Loyal.{LoyalEntriesAreSent};
ghost use Rattle.signed.specs.Plays.{SignedChroniclesAreReplays};
ghost use Rattle.signed.specs.Traitors.{WhateverTraitorsWrite};
ghost use Rattle.signed.specs.Verdicts.{SignedVerdictsMean};
ghost use Rattle.world.specs.Refusals.{IdleEventsChangeNothing, RefusalsChangeNothing};
ghost use Rattle.world.specs.Replay.{
  AccountsAreRuns,
  LedgersAreLegal,
  LedgersDecide,
  ListsAreComplete,
  RunsAreAccounted,
  RunsAreReplays,
};
ghost use Rattle.world.specs.Safety.{ActivationsAreSafe, PartsArePlaced};

/// States that all loyal lieutenants accept the same orders and decide on the same one, whatever the traitors sign, and
/// that they obey a loyal commander. There must be at least m + 2 generals and at most m traitors (TOPLAS 1982, Theorem
/// 2).
pub fn signed_agreement()
    ensures { SignedAgreementHolds }
{}

/// States that the chains listed for a lieutenant as bringing him orders have exactly the orders that he accepts.
pub fn accepted_orders_decide()
    ensures { AcceptedOrdersDecide }
{}

/// States that the loyal lieutenants agree in every finished world with at least m + 2 generals and at most m traitors.
/// A world is finished if all rounds are closed and every loyal general had posted in each.
pub fn signed_worlds_agree()
    ensures { SignedWorldsAgree }
{}

/// States that in every world all chains are unforged: each general whose signature is on a chain has himself sent the
/// chain up to his signature.
pub fn chains_are_unforged()
    ensures { ChainsAreUnforged }
{}

/// States that no general accepts more than eight orders or sends more than eight chains in a round, and that every
/// accepted order was signed by the commander in round 1.
pub fn chains_are_few()
    ensures { ChainsAreFew }
{}

/// States that no general holds more chains than an entry's index can name, and that a context has room for all of
/// them.
pub fn held_chains_are_few()
    ensures { HeldChainsAreFew }
{}

/// States the other laws of chains and agreement for arbitrary letters of the traitors, even such as no program could
/// write: chains are unforged and few, and loyal lieutenants agree if there are at least m + 2 generals and at most m
/// traitors.
pub fn whatever_traitors_write()
    ensures { WhateverTraitorsWrite }
{}

/// States that a loyal general's entries send exactly the chains that SM(m) has him sign, each to all generals who have
/// not signed it.
pub fn loyal_entries_are_sent()
    ensures { LoyalEntriesAreSent }
{}

/// States that the machine accepts an entry of a program exactly if the general may sign a chain by it, and that all
/// accepted entries are sent when the round is closed.
pub fn signed_entries_are_sent()
    ensures { SignedEntriesAreSent }
{}

/// States what each field of a verdict means, and that IC1 and IC2 hold in a finished world if the verdict says that
/// the bound holds.
pub fn signed_verdicts_mean()
    ensures { SignedVerdictsMean }
{}

/// States that the world is left unchanged by a rejected event, by a tick of an activation that has ended, and by a
/// second post of a general in a round.
pub fn signed_refusals_change_nothing()
    ensures refused { RefusalsChangeNothing signed_kind }
    ensures idle { IdleEventsChangeNothing signed_kind }
{}

/// States that no activation traps or takes more steps than its program has instructions. It also states that each
/// traitor in the open round runs his own program, with his context, the chains that he holds, and the scenario's
/// patience.
pub fn signed_activations_are_safe()
    ensures safe { ActivationsAreSafe signed_kind }
    ensures placed { PartsArePlaced signed_kind }
{}

/// States that the events of a schedule, and the events of a replay, are punctual and complete: every loyal general
/// posts before each close, and all activations end.
pub fn signed_lists_are_complete()
    ensures { ListsAreComplete signed_kind }
{}

/// States that two worlds are the same if both were reached by moves of generals from one world, all activations in
/// them have ended, and their ledgers are the same. The reason is that a program's next request depends only on the
/// replies to its earlier ones.
pub fn signed_ledgers_decide()
    ensures { LedgersDecide signed_kind }
{}

/// States that in every world the ledger is legal, its accesses have changed the scenario's words into the board's
/// current words, and only traitors have made accesses.
pub fn signed_ledgers_are_legal()
    ensures { LedgersAreLegal signed_kind }
{}

/// States that a complete run ends in the same world as the replay of its own accesses, and with the same chronicle.
pub fn signed_runs_are_replays()
    ensures worlds { RunsAreReplays signed_kind }
    ensures chronicles { SignedChroniclesAreReplays }
{}

/// States that letters for which a legal ledger accounts are the letters of the ledger's replay, and that this replay
/// is a complete run.
pub fn signed_accounts_are_runs()
    ensures { AccountsAreRuns signed_kind }
{}

/// States that the ledger of a complete run is legal and accounts for the letters of the run.
pub fn signed_runs_are_accounted()
    ensures { RunsAreAccounted signed_kind }
{}
