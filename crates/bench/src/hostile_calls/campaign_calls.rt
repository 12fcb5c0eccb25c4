//! Makes one call on one campaign, and prints its outcome.
use crate::hostile_calls::call::AllocatingCall;
use crate::hostile_calls::campaign::SampleCampaign;
use crate::hostile_calls::outcome::CallOutcome;
use crate::hostile_calls::{
    audit_calls, board_calls, decision_calls, program_calls, reader_calls, world_calls,
};
use anyhow::Result;
use std::sync::Wait;
use std::thread::Threads;

/// Makes a call on a campaign. Prints the names of the call and the campaign, and then the outcome.
pub fn report<R: Print + Threads + Wait + Sync + AllocGlobal>(
    rt: &R,
    name: &str,
    call: AllocatingCall,
    campaign: SampleCampaign,
) -> Result<()> {
    let of = campaign.name();
    println!(rt; "{name} {of}")?;
    let outcome = made(rt, call, campaign)?;
    println!(rt; "{outcome}")?;
    Ok(())
}

fn made<R: Print + Threads + Wait + Sync + AllocGlobal>(
    rt: &R,
    call: AllocatingCall,
    campaign: SampleCampaign,
) -> Result<CallOutcome> {
    match call {
        AllocatingCall::Decode => program_calls::decodes(rt, campaign),
        AllocatingCall::Encode => program_calls::encodes(rt, campaign),
        AllocatingCall::Assemble => program_calls::assembles(rt, campaign),
        AllocatingCall::Disassemble => program_calls::disassembles(rt, campaign),
        AllocatingCall::Verify => program_calls::verifies(rt, campaign),
        AllocatingCall::BoardApply => board_calls::applies(rt),
        AllocatingCall::Open(messages) => world_calls::opens(rt, messages, campaign),
        AllocatingCall::WorldApply(messages) => world_calls::happens(rt, messages, campaign),
        AllocatingCall::Play(messages) => world_calls::plays(rt, messages, campaign),
        AllocatingCall::ResolveAll => decision_calls::resolves(rt, campaign),
        AllocatingCall::Muster(messages) => world_calls::musters(rt, messages, campaign),
        AllocatingCall::Read => reader_calls::reads(rt, campaign),
        AllocatingCall::ReadSchedule => reader_calls::reads_schedule(rt, campaign),
        AllocatingCall::Check(messages) => audit_calls::checks(rt, messages, campaign),
    }
}
