//! Draws a lieutenant's tree: what he received, by a message table or in a campaign (subcommand `tree`).
ghost use Rattle.std.specs.Prelude.{◌≡◌, ◌++◌, [], true, false, IfErr, IfOk, OnOk, string_bytes};
ghost use Rattle.show_tree.specs.Drawn.{DrawsTable};
ghost use Rattle.show_tree.specs.Shown.{ordered};
ghost use Rattle.cli_tasks.specs.Schedules.{played};
ghost use Rattle.cli_tasks.specs.Picturing.{IsTreeIn, TellsWhetherToml, form_of, is_toml};
ghost use Rattle.cli_tasks.specs.Refusals.{RefusesScenario};
ghost use Rattle.cli_tasks.specs.TableRefusals.{RefusesTree, RefusesTreeIn};
ghost use Rattle.cli_tasks.specs.Strangers.{KnowsTree};
ghost use Rattle.show_table.specs.Retold.{IsWhole, table_of, traitors_of};
ghost use Rattle.scenario.specs.Reading.{Tells};

use crate::decisions::table_in;
use crate::refusal::InputRefusal;
use crate::strangers::know_tree;
use cli_words::Drawing;
use round::Scenario;
use show_table::{hearing, told_table, traitors};
use show_tree::{Style, TreeForm, View, drawn, ordered, tree_drawn};
use std::alloc::{AllocError, Global};
use toml::Table;
use toml::de::Error;
use world::{Chronicle, Schedule, play};

/// Draws what the lieutenant `general` received as a tree. The text is a message table or, if it is TOML, an oral
/// campaign, which is played by the empty schedule. `view` says how many levels are drawn, and whether equal ones are
/// folded. The generals in `traitors` are drawn as traitors, and so are the traitors of the campaign.
///
/// # Errors
///
/// Fails with `Table` or `Scenario` for the first fault of the text. Fails with `Stranger` for `general` if he is not a
/// lieutenant, or for the first of `traitors` who is not one of the generals. Fails with `Memory` if memory runs out.
#[tactic(auto, using(crate::proofs::PicturingLemmas::pictured))]
pub fn pictured(
    alloc: Global,
    text: &str,
    general: u8,
    traitors: &[u8],
    drawing: Drawing,
    view: View,
) -> Result<String, InputRefusal>
    ensures known { OnOk result (KnowsTree (is_toml text.now) text.now general traitors.now) }
    ensures drawn { IfOk result
        (λ picture. IsTreeIn (is_toml text.now) text.now traitors.now view (form_of drawing) general
        (string_bytes picture)) }
    ensures refused { IfErr result (RefusesTree general traitors.now text.now) }
{
    let form = form(drawing);
    if !is_toml(alloc, text)? {
        return table_pictured(alloc, text, traitors, view, form, general);
    }
    let scenario = known_scenario(alloc, text, general, traitors)?;
    Ok(campaign_pictured(alloc, scenario, traitors, view, form, general)?)
}

/// Draws what the lieutenant `general` received by a message table as a tree. The generals in `traitors` are drawn as
/// traitors. Fails if the text is not a message table, or if a general is not one of its generals.
#[tactic(auto, using(crate::proofs::StrangerLemmas::table_known))]
fn table_pictured(
    alloc: Global,
    text: &str,
    traitors: &[u8],
    view: View,
    form: TreeForm,
    general: u8,
) -> Result<String, InputRefusal>
    ensures known { OnOk result (KnowsTree false text.now general traitors.now) }
    ensures drawn { IfOk result (λ picture. DrawsTable text.now traitors.now view form general (string_bytes picture)) }
    ensures refused { IfErr result (RefusesTreeIn false general traitors.now text.now) }
{
    let table = table_in(alloc, text)?;
    know_tree(table.generals(), table.commander(), general, traitors)?;
    Ok(drawn(alloc, text, traitors, view, form, general)?)
}

/// Reads an oral campaign from text, and checks that `general` is one of its lieutenants and that each of `traitors` is
/// one of its generals.
#[tactic(auto, using(crate::proofs::StrangerLemmas::scenario_known))]
fn known_scenario(
    alloc: Global,
    text: &str,
    general: u8,
    traitors: &[u8],
) -> Result<Scenario, InputRefusal>
    ensures known { OnOk result (KnowsTree true text.now general traitors.now) }
    ensures told { IfOk result (Tells text.now) }
    ensures refused { IfErr result (RefusesTreeIn true general traitors.now text.now) }
{
    let scenario = scenario_in(alloc, text)?;
    know_tree(scenario.generals(), scenario.commander(), general, traitors)?;
    Ok(scenario)
}

/// Reads an oral campaign from text. Fails with `Scenario` for its first fault, and with `Memory` if memory runs out.
fn scenario_in(alloc: Global, text: &str) -> Result<Scenario, InputRefusal>
    ensures told { IfOk result (Tells text.now) }
    ensures refused { IfErr result (RefusesScenario text.now) }
{
    Ok(scenario::read(alloc, text)?)
}

/// Returns whether a text is TOML. `parsed` is the parser's result for this text. Fails only if the parser ran out of
/// memory.
fn parses(parsed: Result<Table, Error>) -> Result<bool, AllocError>
    ensures { TellsWhetherToml parsed result }
{
    match parsed {
        Ok(_) => Ok(true),
        Err(error) if error.is_memory() => Err(AllocError),
        Err(_) => Ok(false),
    }
}

/// Checks whether the text is TOML. Fails only if memory runs out.
fn is_toml(alloc: Global, text: &str) -> Result<bool, AllocError>
    ensures { IfOk result (λ is. is ≡ is_toml text.now) }
{
    parses(toml::table_from_str(alloc, text))
}

/// Plays an oral campaign by the empty schedule, and draws what `general` received in it as a tree. The traitors of the
/// campaign and the generals in `named` are drawn as traitors.
#[tactic(auto, using(crate::proofs::PicturingLemmas::played_wholly, crate::proofs::PicturingLemmas::of_same))]
fn campaign_pictured(
    alloc: Global,
    scenario: Scenario,
    named: &[u8],
    view: View,
    form: TreeForm,
    general: u8,
) -> Result<String, AllocError>
    ensures { IfOk result (λ picture. DrawsTable (table_of (played scenario []))
        (traitors_of scenario ++ named.now) (ordered scenario.order view) form general (string_bytes picture)) }
{
    scenario.recall();
    let view = ordered(scenario.order(), view);
    let mut all = traitors(alloc, &scenario)?;
    all.extend_from_slice(named)?;
    let schedule = Schedule {
        lines: Vec::new(alloc),
    };
    let chronicle = play(alloc, scenario, &schedule)?;
    Ok(chronicle_pictured(alloc, &chronicle, all.as_slice(), view, form, general)?)
}

/// Draws what `general` received in the campaign of a chronicle as a tree. The orders are those of the message table
/// that the letters in the chronicle give.
#[tactic(auto, using(crate::proofs::PicturingLemmas::is_drawn))]
fn chronicle_pictured(
    alloc: Global,
    chronicle: &Chronicle,
    traitors: &[u8],
    view: View,
    form: TreeForm,
    general: u8,
) -> Result<String, AllocError>
    requires { IsWhole chronicle.now }
    ensures { IfOk result (λ picture. DrawsTable (table_of chronicle.now) traitors.now view form general
        (string_bytes picture)) }
{
    let told = hearing(alloc, chronicle)?;
    let table = told_table(&told, chronicle);
    Ok(tree_drawn(alloc, &table, traitors, view, form, general)?)
}

/// Returns the form in which a tree is drawn: as lines with box-drawing or ASCII characters, as a graph, or in SVG.
fn form(drawing: Drawing) -> TreeForm
    ensures { result ≡ form_of drawing }
{
    match drawing {
        Drawing::Boxes => TreeForm::Lines(Style::Boxes),
        Drawing::Ascii => TreeForm::Lines(Style::Ascii),
        Drawing::Graph => TreeForm::Graph,
        Drawing::Svg => TreeForm::Svg,
    }
}
