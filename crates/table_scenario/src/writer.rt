//! Writes a message table as a scenario in TOML.
ghost use Rattle.std.specs.Prelude.{◌≡◌, ◌++◌, IfOk, OnOk, string_bytes};
ghost use Rattle.label.specs.Labels.{on};
ghost use Rattle.table_scenario.specs.Scenarios.{first_order, is_short, numbers_text, rule_text, scenario_text, traitors_text};

use crate::programs::push_traitor;
use book::Heard;
use combine::Rule;
use label::Label;
use std::alloc::{AllocError, Global};

/// Returns whether a lieutenant relays at most 800 orders in a campaign of this many generals with the bound `bound`.
/// This is so by a bound of at most 2, among at most 8 generals, and by the bound 3 among at most 11. Then the program
/// that `scenario_of` writes for a traitor has fewer than 4,096 units.
pub fn is_short(generals: u8, bound: u8) -> bool
    ensures { result ≡ is_short generals bound }
{
    bound < 3 || generals < 9 || bound == 3 && generals < 12
}

/// Returns a message table as a scenario in TOML (docs/FORMATS.md, "Scenarios"). The generals in `traitors` are
/// traitors: the program of each sends, in each round, the orders that the table says he sent, and nothing where the
/// table has no order. The order of a loyal commander is the one that the first lieutenant took from him.
///
/// # Errors
///
/// `AllocError` if out of memory.
#[tactic(auto, unfolding(crate::specs::Scenarios::scenario_text))]
pub fn scenario_of<H: Heard>(
    alloc: Global,
    table: &H,
    traitors: &[u8],
) -> Result<String, AllocError>
    ensures { IfOk result (λ text. string_bytes text ≡ scenario_text (H.seen table.now) traitors.now) }
{
    let mut text = numbers(alloc, table)?;
    push_rule(alloc, &mut text, table.rule())?;
    push_traitors(alloc, &mut text, table, traitors)?;
    Ok(text)
}

/// Returns the keys `generals`, `bound`, `commander` and `order`.
fn numbers<H: Heard>(alloc: Global, table: &H) -> Result<String, AllocError>
    ensures { IfOk result (λ text. string_bytes text ≡ numbers_text (H.seen table.now)) }
{
    let generals = table.generals();
    let bound = table.bound();
    let commander = table.commander();
    let order = first_order(table);
    format!(in alloc;
        "generals = {generals}\nbound = {bound}\ncommander = {commander}\norder = {order}\n"
    )
}

/// Returns the order that the first lieutenant took from the commander.
fn first_order<H: Heard>(table: &H) -> u32
    ensures { result ≡ first_order (H.seen table.now) }
{
    let commander = table.commander();
    let first = u8::from(commander == 0);
    table.told(&Label::of(commander), first).unwrap_or(0)
}

/// Appends the key `rule`, unless the rule is the default one.
fn push_rule(alloc: Global, text: &mut String, rule: Rule) -> Result<(), AllocError>
    ensures { OnOk result (string_bytes text.new ≡ string_bytes text.old ++ rule_text rule) }
{
    if rule.is_default() {
        return Ok(());
    }
    let name = rule.name();
    let line = format!(in alloc; "rule = \"{name}\"\n")?;
    text.push_str(line.as_str())?;
    Ok(())
}

/// Appends the TOML tables of the traitors, in ascending order.
fn push_traitors<H: Heard>(
    alloc: Global,
    text: &mut String,
    table: &H,
    traitors: &[u8],
) -> Result<(), AllocError>
    ensures { OnOk result (string_bytes text.new ≡ string_bytes text.old
        ++ traitors_text (H.seen table.now) traitors.now) }
{
    for general in 0..table.generals() {
        if is_on(traitors, general) {
            push_traitor(alloc, text, table, general)?;
        }
    }
    Ok(())
}

/// Returns whether the general is one of the given ones.
fn is_on(generals: &[u8], general: u8) -> bool
    ensures { result ≡ on generals.now general }
{
    generals.iter().any(|x| *x == general)
}
