//! Reads campaigns and schedules from the bytes of files, and reports why the bytes are rejected.
ghost use Rattle.std.specs.Prelude.{◌≡◌, ◌≢◌, ◌<◌, ◌≤◌, ℕ, List, length, IfOk, IfErr, Ok, Some, string_bytes};
ghost use Rattle.std.specs.Str.{IsUtf8};
ghost use Rattle.scenario.specs.Reading.{Tells, TellsAny};
ghost use Rattle.trace.specs.Schedules.{schedule_told};
ghost use Rattle.cli_tasks.specs.Schedules.{TellsCampaign, is_chronicle};
ghost use Rattle.streams.specs.Reading.{IsFront, MayBeginText};
ghost use Rattle.cli_tasks.specs.Refusals.{RefusesAsked, RefusesCampaign, RefusesScenario, RefusesSchedule, RefusesText};
ghost use Rattle.cli_tasks.specs.declared.refusal.InputRefusal.TheVariants.{Memory, NotText, Trace};
ghost use Rattle.trace.specs.declared.fault.TraceFault.TheVariants.{Line};
ghost use Rattle.trace.specs.declared.fault.TraceError.TheVariants.{At};

use crate::refusal::InputRefusal;
use crate::texts::as_text;
use cli_words::Account;
use round::Scenario;
use scenario::Campaign;
use std::alloc::Global;
use streams::may_begin_text;
use trace::{MOST_SCHEDULE_BYTES, TraceError, TraceFault, read_schedule};
use world::Schedule;

/// Reads a campaign, with oral or with signed messages.
///
/// # Errors
///
/// Fails with `Scenario` for the first fault of the scenario, with `NotText` if the bytes are not UTF-8, and with
/// `Memory` if memory runs out.
pub fn any_campaign(alloc: Global, bytes: &[u8]) -> Result<Campaign, InputRefusal>
    ensures told { IfOk result (TellsAny bytes.now) }
    ensures refused { IfErr result (RefusesText RefusesCampaign bytes.now) }
    ensures none { IfErr result (λ refusal. (IsUtf8 bytes.now → ⊥) → refusal ≡ NotText) }
{
    Ok(scenario::read_any(alloc, as_text(bytes)?)?)
}

/// Reads a campaign with oral messages.
///
/// # Errors
///
/// Fails with `Scenario` for the first fault of the scenario, with `NotText` if the bytes are not UTF-8, and with
/// `Memory` if memory runs out.
pub fn campaign(alloc: Global, bytes: &[u8]) -> Result<Scenario, InputRefusal>
    ensures told { IfOk result (Tells bytes.now) }
    ensures refused { IfErr result (RefusesText RefusesScenario bytes.now) }
    ensures none { IfErr result (λ refusal. (IsUtf8 bytes.now → ⊥) → refusal ≡ NotText) }
{
    Ok(scenario::read(alloc, as_text(bytes)?)?)
}

/// Reads a campaign that will be printed as a chronicle or as a message table, as `account` says. Only an oral campaign
/// has a message table, so for a table a signed campaign is rejected.
///
/// # Errors
///
/// Fails with `Scenario` for the first fault of the scenario, with `NotText` if the bytes are not UTF-8, and with
/// `Memory` if memory runs out.
pub fn asked_campaign(
    alloc: Global,
    bytes: &[u8],
    account: Account,
) -> Result<Campaign, InputRefusal>
    ensures told { IfOk result (TellsCampaign (is_chronicle account) bytes.now) }
    ensures refused { IfErr result (RefusesText (RefusesAsked (is_chronicle account)) bytes.now) }
    ensures none { IfErr result (λ refusal. (IsUtf8 bytes.now → ⊥) → refusal ≡ NotText) }
{
    match account {
        Account::Chronicle => any_campaign(alloc, bytes),
        Account::Table => Ok(Campaign::Oral(campaign(alloc, bytes)?)),
    }
}

/// Reads a schedule: the lines that say in which order the generals act.
///
/// # Errors
///
/// Fails with `Trace` and the first line that is not a line of a schedule, with `NotText` if the bytes are not UTF-8,
/// and with `Memory` if memory runs out.
pub fn schedule(alloc: Global, bytes: &[u8]) -> Result<Schedule, InputRefusal>
    ensures told { IfOk result (λ schedule. schedule_told bytes.now ≡ Ok schedule) }
    ensures refused { IfErr result (RefusesText RefusesSchedule bytes.now) }
    ensures none { IfErr result (λ refusal. (IsUtf8 bytes.now → ⊥) → refusal ≡ NotText) }
{
    Ok(read_schedule(alloc, as_text(bytes)?)?)
}

/// Reads a schedule from the front of its file. `front` contains the whole file if the file has at most 1,048,576
/// bytes. Otherwise it contains the first bytes of the file, more than 1,048,576 of them, and the file is rejected.
///
/// # Errors
///
/// Fails with `Trace` and the first line that is not a line of a schedule, which is line 1 if the file is too long.
/// Fails with `NotText` if the bytes are not UTF-8, and with `Memory` if memory runs out.
pub fn schedule_of(alloc: Global, front: &[u8]) -> Result<Schedule, InputRefusal>
    ensures told { IfOk result (λ schedule. (all : List ℕ) → IsFront 1048576 (Some all) front.now →
        schedule_told all ≡ Ok schedule) }
    ensures refused { IfErr result (λ refusal. (all : List ℕ) → IsFront 1048576 (Some all) front.now →
        RefusesText RefusesSchedule all refusal) }
    ensures long { 1048576 < length front.now → IfErr result (λ refusal. refusal ≢ Memory) }
    ensures text { 1048576 < length front.now → MayBeginText front.now →
        IfErr result (λ refusal. refusal ≡ Trace (At Line 1)) }
    ensures no_text { 1048576 < length front.now → (MayBeginText front.now → ⊥) →
        IfErr result (λ refusal. refusal ≡ NotText) }
    ensures none { (length front.now ≤ 1048576) → (IsUtf8 front.now → ⊥) → IfErr result (λ refusal. refusal ≡ NotText) }
{
    if front.len() <= MOST_SCHEDULE_BYTES {
        return schedule(alloc, front);
    }
    Err(too_long(front))
}

/// Returns why a file with more than 1,048,576 bytes is rejected as a schedule: with `Trace` for line 1 if a UTF-8 text
/// may begin with the bytes `front`, and with `NotText` otherwise.
fn too_long(front: &[u8]) -> InputRefusal
    requires { 1048576 < length front.now }
    ensures told { result ≢ Memory }
    ensures text { MayBeginText front.now → result ≡ Trace (At Line 1) }
    ensures no_text { (MayBeginText front.now → ⊥) → result ≡ NotText }
    ensures refused { (all : List ℕ) → IsFront 1048576 (Some all) front.now → RefusesText RefusesSchedule all result }
{
    if !may_begin_text(front) {
        return InputRefusal::NotText;
    }
    InputRefusal::Trace(TraceError::At(TraceFault::Line, 1))
}

/// Reads a campaign, with oral or with signed messages, and returns it with the text of its scenario.
///
/// # Errors
///
/// Fails with `Scenario` for the first fault of the scenario, with `NotText` if the bytes are not UTF-8, and with
/// `Memory` if memory runs out.
pub fn campaign_with_text(alloc: Global, bytes: &[u8]) -> Result<(Campaign, String), InputRefusal>
    ensures told { IfOk result (λ both. TellsAny bytes.now both.0 × (string_bytes both.1 ≡ bytes.now)) }
    ensures refused { IfErr result (RefusesText RefusesCampaign bytes.now) }
    ensures none { IfErr result (λ refusal. (IsUtf8 bytes.now → ⊥) → refusal ≡ NotText) }
{
    let campaign = any_campaign(alloc, bytes)?;
    let text = String::from_str(alloc, as_text(bytes)?)?;
    Ok((campaign, text))
}
