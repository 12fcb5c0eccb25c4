//! Computes the message table of a campaign from its letters.
ghost use Rattle.std.specs.Prelude.{suc, ◌≡◌, IfOk, Ok, length, string_bytes};
ghost use Rattle.book.specs.Grammar.{table_told};
ghost use Rattle.show_table.specs.Retold.{IsRetold, IsWhole, table_of};
ghost use Rattle.round.specs.Origin.{AreRoundsOf};
ghost use Rattle.round.specs.Told.{WasTold};

use book::{TreeTable, table_of};
use round::{Received, Round, Scenario};
use std::alloc::{AllocError, Global};
use world::Chronicle;

/// Returns the message table of a campaign as text. It has a line for each label and receiver for which an order was
/// received, with shorter labels first. This table leads to the decisions in the chronicle.
///
/// # Errors
///
/// Fails with `AllocError` if memory runs out.
pub fn table(alloc: Global, chronicle: &Chronicle) -> Result<String, AllocError>
    requires { IsWhole chronicle.now }
    ensures { IfOk result (λ text. IsRetold chronicle.now (string_bytes text)) }
{
    let scenario = chronicle.scenario();
    scenario.recall();
    let told = hear(alloc, scenario, chronicle.letters())?;
    table_of(
        alloc,
        told.trees(),
        scenario.generals(),
        scenario.bound(),
        scenario.commander(),
        scenario.rule(),
    )
}

/// Returns what the lieutenants of a campaign received, according to the letters in its chronicle.
///
/// # Errors
///
/// Fails with `AllocError` if memory runs out.
pub fn hearing(alloc: Global, chronicle: &Chronicle) -> Result<Received, AllocError>
    requires { IsWhole chronicle.now }
    ensures { IfOk result (WasTold chronicle.now.scenario chronicle.now.letters) }
{
    hear(alloc, chronicle.scenario(), chronicle.letters())
}

/// Returns the message table of a campaign, taken from what its lieutenants received. Parsing the text that `table`
/// returns gives the same table.
pub fn told_table<'a>(told: &'a Received, chronicle: &Chronicle) -> TreeTable<'a>
    requires whole { IsWhole chronicle.now }
    requires told { WasTold chronicle.now.scenario chronicle.now.letters told.now }
    ensures { table_told (table_of chronicle.now) ≡ Ok result }
{
    let scenario = chronicle.scenario();
    scenario.recall();
    let commander = scenario.commander();
    TreeTable::of(
        told.trees(),
        scenario.generals(),
        scenario.bound(),
        commander,
        scenario.rule(),
    )
}

/// Returns what the lieutenants of a scenario received in the letters of all rounds.
fn hear(alloc: Global, scenario: &Scenario, letters: &[Round]) -> Result<Received, AllocError>
    requires rounds { length letters.now ≡ suc scenario.now.bound }
    requires letters { AreRoundsOf scenario.now letters.now }
    ensures { IfOk result (WasTold scenario.now letters.now) }
{
    let mut told = Received::new(alloc, scenario)?;
    for round in letters {
        told.deliver(scenario, round.letters());
    }
    Ok(told)
}
