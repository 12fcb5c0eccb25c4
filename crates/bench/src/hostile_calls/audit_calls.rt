//! Audits chronicles: makes the calls that allocate memory, and checks that damaged chronicles are rejected.
use crate::chronicles::{MessageKind, audited, told, told_freely};
use crate::hostile_calls::campaign::SampleCampaign;
use crate::hostile_calls::changes::{next, with_byte};
use crate::hostile_calls::marks::{back, ready};
use crate::hostile_calls::outcome::{CallAnswer, CallOutcome, compared};
use anyhow::{Result, bail};
use round::Scenario;
use std::alloc::{AllocError, Global};
use std::str;
use trace::TraceError;
use world::Verdict;

/// Plays a sample campaign by its schedule, and returns the text of its chronicle.
fn scheduled(alloc: Global, messages: MessageKind, campaign: SampleCampaign) -> Result<Vec<u8>> {
    let schedule = campaign.schedule(alloc)?;
    told(
        alloc,
        messages,
        campaign.scenario(alloc, messages)?,
        &schedule,
    )
}

/// Audits the chronicle of a sample campaign twice, with `check` or `check_signed`, and compares the results.
pub fn checks<R: Print + AllocGlobal>(
    rt: &R,
    messages: MessageKind,
    campaign: SampleCampaign,
) -> Result<CallOutcome> {
    let scenario = campaign.scenario(rt.alloc(), messages)?;
    let text = scheduled(rt.alloc(), messages, campaign)?;
    checks_text(rt, messages, &scenario, str::from_utf8(text.as_slice())?)
}

/// Audits this text twice, with `check` or `check_signed`, and compares the results.
fn checks_text<R: Print + AllocGlobal>(
    rt: &R,
    messages: MessageKind,
    scenario: &Scenario,
    text: &str,
) -> Result<CallOutcome> {
    ready(rt);
    let first = audited(rt.alloc(), messages, scenario, text);
    back(rt);
    let again = audited(rt.alloc(), messages, scenario, text);
    let first = judged(rt.alloc(), first)?;
    compared(first, judged(rt.alloc(), again)?)
}

/// Returns the answer of an audit: the verdict as bytes, or that memory ran out. Fails if the text is rejected.
fn judged(alloc: Global, answer: Result<Verdict, TraceError>) -> Result<CallAnswer> {
    match answer {
        Ok(verdict) => Ok(CallAnswer::Bytes(verdict_bytes(alloc, verdict)?)),
        Err(TraceError::Memory) => Ok(CallAnswer::Memory),
        Err(_) => bail!("a chronicle is not sound"),
    }
}

/// Returns a verdict as three bytes, one for each of its fields.
fn verdict_bytes(alloc: Global, verdict: Verdict) -> Result<Vec<u8>, AllocError> {
    let obeyed = match verdict.obeyed {
        Some(true) => b'y',
        Some(false) => b'n',
        None => b'-',
    };
    let bytes = [u8::from(verdict.alike), obeyed, u8::from(verdict.bound)];
    Vec::from_slice(alloc, &bytes)
}

/// How often each byte of a chronicle is changed.
const TIMES: u32 = 9;

/// Audits all proper prefixes of a chronicle of seven generals, and copies of it with one byte changed, with oral and
/// with signed messages. Fails unless all are rejected.
pub fn report<R: Print + AllocGlobal>(rt: &R) -> Result<()> {
    damage(rt, MessageKind::Oral)?;
    damage(rt, MessageKind::Signed)
}

/// Audits all proper prefixes of a chronicle of seven generals with this kind of messages, and copies of it with one
/// byte changed. Fails unless all are rejected.
fn damage<R: Print + AllocGlobal>(rt: &R, messages: MessageKind) -> Result<()> {
    let scenario = SampleCampaign::Seven.scenario(rt.alloc(), messages)?;
    let chronicle = told_freely(rt.alloc(), messages, scenario.copy(rt.alloc())?)?;
    cut_off(rt, messages, &scenario, chronicle.as_slice())?;
    change(rt, messages, &scenario, chronicle.as_slice())
}

/// Audits all proper prefixes of a chronicle. Fails unless all are rejected.
fn cut_off<R: Print + AllocGlobal>(
    rt: &R,
    messages: MessageKind,
    scenario: &Scenario,
    bytes: &[u8],
) -> Result<()> {
    let length = bytes.len();
    if !are_beginnings_refused(rt.alloc(), messages, scenario, bytes)? {
        bail!("a beginning is not refused");
    }
    println!(rt; "a chronicle of {length} bytes: each beginning refused")?;
    Ok(())
}

/// Audits copies of a chronicle with one byte changed. Fails unless all are rejected.
fn change<R: Print + AllocGlobal>(
    rt: &R,
    messages: MessageKind,
    scenario: &Scenario,
    bytes: &[u8],
) -> Result<()> {
    if !are_changes_refused(rt.alloc(), messages, scenario, bytes)? {
        bail!("a changed chronicle is not refused");
    }
    println!(rt; "with another byte at each place, {TIMES} times: each refused")?;
    Ok(())
}

/// Checks whether all proper prefixes of a chronicle are rejected.
fn are_beginnings_refused(
    alloc: Global,
    messages: MessageKind,
    scenario: &Scenario,
    bytes: &[u8],
) -> Result<bool, AllocError> {
    for place in 0..bytes.len() {
        if !is_refused(alloc, messages, scenario, &bytes[..place])? {
            return Ok(false);
        }
    }
    Ok(true)
}

/// Checks whether all copies of a chronicle with one byte changed are rejected. Each byte is changed `TIMES` times.
fn are_changes_refused(
    alloc: Global,
    messages: MessageKind,
    scenario: &Scenario,
    bytes: &[u8],
) -> Result<bool, AllocError> {
    let mut state = 1;
    for place in 0..bytes.len() {
        for _ in 0..TIMES {
            let byte = bytes[place].wrapping_add(difference(&mut state));
            if !is_refused_with(alloc, messages, scenario, bytes, place, byte)? {
                return Ok(false);
            }
        }
    }
    Ok(true)
}

/// Checks whether a copy of a chronicle with `byte` at index `place` is rejected.
fn is_refused_with(
    alloc: Global,
    messages: MessageKind,
    scenario: &Scenario,
    bytes: &[u8],
    place: usize,
    byte: u8,
) -> Result<bool, AllocError> {
    let changed = with_byte(alloc, bytes, place, byte)?;
    is_refused(alloc, messages, scenario, changed.as_slice())
}

/// Returns a pseudorandom number from 1 to 255, which is added to a byte in order to change it.
fn difference(state: &mut u64) -> u8 {
    let [.., more] = next(state).to_be_bytes();
    if more == 0 { 1 } else { more }
}

/// Checks whether the bytes are rejected as the chronicle of a scenario, because they are not UTF-8 or because of one
/// of their lines.
///
/// # Errors
///
/// Fails with `AllocError` if the audit fails for another reason, such as too little memory.
fn is_refused(
    alloc: Global,
    messages: MessageKind,
    scenario: &Scenario,
    bytes: &[u8],
) -> Result<bool, AllocError> {
    let Ok(text) = str::from_utf8(bytes) else {
        return Ok(true);
    };
    match audited(alloc, messages, scenario, text) {
        Ok(_) => Ok(false),
        Err(TraceError::At(..)) => Ok(true),
        Err(_) => Err(AllocError),
    }
}
