//! Reads the campaign that the text of a scenario describes.
ghost use Rattle.std.specs.Prelude.{◌≡◌, ◌-◌, ◌≤◌, min, length, replicate, option_map, None, Some, IfOk, OnOk, MatchBool, MatchResult};
ghost use Rattle.toml.specs.Parse.{parse_document};
ghost use Rattle.toml.specs.View.{view, table_view, items_view};
ghost use Rattle.scenario.specs.Flaws.{Gives, OrMemory};
ghost use Rattle.scenario.specs.Checks.{head, rule_by_name, rule, messages_by_name, messages, fitting, tables};
ghost use Rattle.scenario.specs.Reading.{Answers, scenario_of, campaign_by, unseated, Reads, ReadsAny};
ghost use Rattle.scenario.specs.declared.fault.ScenarioError.TheVariants.{Memory, Toml};

use crate::fault::{ScenarioError, ScenarioFault};
use crate::head::Head;
use crate::keys::{at, elements, general, number, optional_number, top_is_known};
use crate::messages::{Campaign, Kinds, Messages};
use crate::place::{ScenarioKey, ScenarioPlace};
use crate::tables::traitor;
use crate::words::board;
use combine::Rule;
use round::{Player, Scenario};
use std::alloc::{AllocError, Global};
use std::sync::Arc;
use toml::{Table, Value};
use verify::Verified;

/// Returns the rule, by which orders are combined, with this name.
///
/// # Errors
///
/// Fails with `At`, the fault `Range` and the key `rule` if no rule has this name.
fn rule_by_name(text: &str) -> Result<Rule, ScenarioError>
    ensures { Gives (λ r. r) result (rule_by_name text.now) }
{
    match Rule::named(text.as_bytes()) {
        Some(rule) => Ok(rule),
        None => Err(ScenarioError::At(ScenarioFault::Range, ScenarioPlace::Key(ScenarioKey::Rule))),
    }
}

/// Returns the rule by which a scenario combines orders. `value` is the value of the key `rule`. If the key is missing,
/// it is `None`, and the default rule is returned.
///
/// # Errors
///
/// Fails with `At` and the key `rule`. The fault is `Kind` if the value is not a string, or `Range` if no rule has this
/// name.
#[tactic(auto, unfolding(crate::specs::Checks::rule))]
fn rule(value: Option<&Value>) -> Result<Rule, ScenarioError>
    ensures { Gives (λ r. r) result (rule (option_map (λ v. view v.now) value.entry)) }
{
    let Some(value) = value else {
        return Ok(Rule::DEFAULT);
    };
    match value.as_str() {
        Some(text) => rule_by_name(text),
        None => Err(ScenarioError::At(ScenarioFault::Kind, ScenarioPlace::Key(ScenarioKey::Rule))),
    }
}

/// Returns how orders are sent, for the text `oral` or `signed`. `signed` is accepted only if `kinds` is `Both`.
///
/// # Errors
///
/// Fails with `At`, the fault `Range` and the key `messages` for a text that is not accepted.
fn messages_by_name(kinds: Kinds, text: &str) -> Result<Messages, ScenarioError>
    ensures { Gives (λ m. m) result (messages_by_name kinds text.now) }
{
    match kinds {
        Kinds::OralAlone | Kinds::Both if text == "oral" => Ok(Messages::Oral),
        Kinds::Both if text == "signed" => Ok(Messages::Signed),
        Kinds::OralAlone | Kinds::Both => {
            Err(ScenarioError::At(
                ScenarioFault::Range,
                ScenarioPlace::Key(ScenarioKey::Messages),
            ))
        }
    }
}

/// Returns how orders are sent in a scenario. `value` is the value of the key `messages`. If the key is missing, it is
/// `None`, and orders are sent orally.
///
/// # Errors
///
/// Fails with `At` and the key `messages`. The fault is `Kind` if the value is not a string, or `Range` if it is not
/// accepted.
#[tactic(auto, unfolding(crate::specs::Checks::messages))]
fn messages(kinds: Kinds, value: Option<&Value>) -> Result<Messages, ScenarioError>
    ensures { Gives (λ m. m) result (messages kinds (option_map (λ v. view v.now) value.entry)) }
{
    let Some(value) = value else {
        return Ok(Messages::Oral);
    };
    match value.as_str() {
        Some(text) => messages_by_name(kinds, text),
        None => Err(ScenarioError::At(
            ScenarioFault::Kind,
            ScenarioPlace::Key(ScenarioKey::Messages),
        )),
    }
}

/// Checks that a signed campaign has no key `rule`, since it combines no orders.
///
/// # Errors
///
/// Fails with `At`, the fault `Key` and the key `rule` if a signed campaign has it.
fn fitting(messages: Messages, rule: Option<&Value>) -> Result<(), ScenarioError>
    ensures { Gives (λ _. tt) result (fitting messages (option_map (λ v. view v.now) rule.entry)) }
{
    match (messages, rule) {
        (Messages::Signed, Some(_)) => {
            Err(ScenarioError::At(ScenarioFault::Key, ScenarioPlace::Key(ScenarioKey::Rule)))
        }
        (Messages::Signed, None) | (Messages::Oral, _) => Ok(()),
    }
}

/// Returns the greatest bound of a campaign with this number of generals: 4, or the number of generals less 2 if that
/// is less.
fn greatest_bound(generals: u8) -> u8
    ensures { result ≡ min 4 (generals - 2) }
{
    generals.saturating_sub(2).min(4)
}

/// Reads the head of a scenario: everything except its traitors. `kinds` says which campaigns are accepted.
///
/// # Errors
///
/// Fails with `Unknown` and the first unknown key, or else with `At` and the first fault. Fails with `Memory` if an
/// allocation fails.
#[tactic(auto, unfolding(crate::specs::Checks::head))]
fn head(alloc: Global, table: &Table, kinds: Kinds) -> Result<Head, ScenarioError>
    ensures { OrMemory (λ r. Gives (λ h. h) r (head kinds (table_view table.now))) result }
{
    top_is_known(alloc, table)?;
    let generals = number(
        ScenarioPlace::Key(ScenarioKey::Generals),
        2,
        13,
        at(table, ScenarioKey::Generals),
    )? as u8;
    let most = u32::from(greatest_bound(generals));
    let bound = number(
        ScenarioPlace::Key(ScenarioKey::Bound),
        0,
        most,
        at(table, ScenarioKey::Bound),
    )? as u8;
    let place = ScenarioPlace::Key(ScenarioKey::Commander);
    let commander = general(
        place,
        ScenarioFault::Range,
        generals,
        at(table, ScenarioKey::Commander),
    )?;
    let order = number(
        ScenarioPlace::Key(ScenarioKey::Order),
        0,
        u32::MAX,
        at(table, ScenarioKey::Order),
    )?;
    let board = board(at(table, ScenarioKey::Board))?;
    let patience = optional_number(
        ScenarioPlace::Key(ScenarioKey::Patience),
        1,
        4096,
        at(table, ScenarioKey::Patience),
    )?;
    let rule = rule(at(table, ScenarioKey::Rule))?;
    let messages = messages(kinds, at(table, ScenarioKey::Messages))?;
    fitting(messages, at(table, ScenarioKey::Rule))?;
    Ok(Head {
        generals,
        bound,
        commander,
        order,
        board,
        patience,
        rule,
        messages,
    })
}

/// Returns the elements of the list of traitors. `value` is the value of the key `traitor`. If the key is missing, it
/// is `None`, and there are no elements.
///
/// # Errors
///
/// Fails with `At`, the fault `Kind` and the key `traitor` if the value is not a list.
#[tactic(auto, unfolding(crate::specs::Checks::tables))]
fn tables(value: Option<&Value>) -> Result<&[Value], ScenarioError>
    ensures { Gives (λ t. items_view t.now) result (tables (option_map (λ v. view v.now) value.entry)) }
{
    match value {
        None => Ok(&[]),
        Some(value) => elements(ScenarioPlace::Key(ScenarioKey::Traitor), value),
    }
}

/// Returns a list with a player for each general. The players have no programs yet.
///
/// # Errors
///
/// Fails with `AllocError` if an allocation fails.
fn unseated(alloc: Global, generals: u8) -> Result<Vec<Player>, AllocError>
    ensures { IfOk result (λ seats. seats.items ≡ replicate generals None) }
{
    let mut seats = Vec::with_capacity(alloc, usize::from(generals))?;
    for _general in 0..generals {
        seats.push(Player::new(None))?;
    }
    Ok(seats)
}

/// Returns a player who is a traitor with this program.
///
/// # Errors
///
/// Fails with `Memory` if an allocation fails.
fn seat_of(alloc: Global, program: Verified) -> Result<Player, ScenarioError>
    ensures { MatchResult result (λ seat. seat ≡ Some program) (λ e. e ≡ Memory) }
{
    Ok(Player::new(Some(Arc::new(alloc, program)?)))
}

/// Reads the tables of the traitors, and returns the scenario with this head in which these traitors have their
/// programs.
///
/// # Errors
///
/// Fails with the first fault of a table or of its program, in the order of the tables, or with `Memory` if an
/// allocation fails.
fn seated(alloc: Global, head: Head, values: &[Value]) -> Result<Scenario, ScenarioError>
    ensures { OrMemory (Answers (scenario_of head) head.generals 0 (unseated head) (items_view values.now)) result }
{
    let Head {
        generals,
        bound,
        commander,
        order,
        board,
        patience,
        rule,
        messages: _,
    } = head;
    let mut seats = unseated(alloc, generals)?;
    for index in 0..values.len() {
        let (general, program) = traitor(alloc, generals, seats.as_slice(), index, &values[index])?;
        seats[usize::from(general)] = seat_of(alloc, program)?;
    }
    Ok(Scenario::new(
        generals, bound, commander, order, board, seats, patience, rule,
    ))
}

/// Reads the scenario of an oral campaign from its parsed text.
///
/// # Errors
///
/// Fails with the first fault, in the order that `read` describes, or with `Memory` if an allocation fails.
fn scenario(alloc: Global, table: &Table) -> Result<Scenario, ScenarioError>
    ensures { Reads (Some (table_view table.now)) result }
{
    let head = head(alloc, table, Kinds::OralAlone)?;
    let values = tables(at(table, ScenarioKey::Traitor))?;
    seated(alloc, head, values)
}

/// Returns a scenario as a campaign with oral or signed messages.
fn campaign_by(messages: Messages, scenario: Scenario) -> Campaign
    ensures { result ≡ campaign_by messages scenario }
{
    match messages {
        Messages::Oral => Campaign::Oral(scenario),
        Messages::Signed => Campaign::Signed(scenario),
    }
}

/// Reads an oral or signed campaign from the parsed text of its scenario.
///
/// # Errors
///
/// Fails with the first fault, in the order that `read_any` describes, or with `Memory` if an allocation fails.
fn campaign(alloc: Global, table: &Table) -> Result<Campaign, ScenarioError>
    ensures { ReadsAny (Some (table_view table.now)) result }
{
    let head = head(alloc, table, Kinds::Both)?;
    let messages = head.messages;
    let values = tables(at(table, ScenarioKey::Traitor))?;
    let scenario = seated(alloc, head, values)?;
    Ok(campaign_by(messages, scenario))
}

/// Returns the error for a text that the parser does not accept: `Memory` if `is_memory` is true, and otherwise `Toml`.
fn unparsed(is_memory: bool) -> ScenarioError
    ensures { MatchBool is_memory (result ≡ Memory) (result ≡ Toml) }
{
    if is_memory {
        ScenarioError::Memory
    } else {
        ScenarioError::Toml
    }
}

/// Reads the scenario of an oral campaign from its text.
///
/// # Errors
///
/// Fails with the first fault and its place. The first check is that the text is TOML, and the second that no key at
/// the top is unknown. Next come `generals`, `bound`, `commander`, `order`, `board`, `patience`, `rule` and `messages`,
/// where a signed campaign is rejected (S4). The list `traitor` and its tables, in their order, come last. Fails with
/// `Memory` if an allocation fails.
pub fn read(alloc: Global, text: &str) -> Result<Scenario, ScenarioError>
    ensures { Reads (parse_document text.now) result }
{
    match toml::table_from_str(alloc, text) {
        Ok(table) => scenario(alloc, &table),
        Err(error) => Err(unparsed(error.is_memory())),
    }
}

/// Reads an oral or signed campaign from the text of its scenario.
///
/// # Errors
///
/// Fails with the first fault and its place, in the order of `read`. After `messages` comes the check that a signed
/// campaign has no key `rule` (S2). Fails with `Memory` if an allocation fails.
pub fn read_any(alloc: Global, text: &str) -> Result<Campaign, ScenarioError>
    ensures { ReadsAny (parse_document text.now) result }
{
    match toml::table_from_str(alloc, text) {
        Ok(table) => campaign(alloc, &table),
        Err(error) => Err(unparsed(error.is_memory())),
    }
}
