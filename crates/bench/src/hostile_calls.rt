//! Makes the calls of the laboratory that allocate memory, and gives its layers damaged input.
//!
//! Before a call on the data of a campaign, the line `ready` is printed, and after it the line `back`. All memory
//! that is allocated between the two lines is allocated by the call, so that another program can make the allocation
//! fail. Then the same call is made again, and the two results are compared.

mod audit_calls;
mod board_calls;
mod bytecode;
mod call;
mod campaign;
mod campaign_calls;
mod changes;
mod decision_calls;
mod marks;
mod outcome;
mod program_calls;
mod reader_calls;
mod stored_programs;
mod world_calls;
mod worlds;
mod write_failures;
mod writer;

use anyhow::{Result, bail};
use call::{CALLS, named};
use campaign::{CAMPAIGNS, SampleCampaign};
use std::rt::Files;
use std::sync::Wait;
use std::thread::Threads;

/// Makes one call on one campaign if `words` are their names. Otherwise `words` are files of programs: makes every
/// call on every campaign, checks damaged copies of these programs, and gives the layers other damaged input.
pub fn answer<R: Print + Files + Threads + Wait + Sync + AllocGlobal>(
    rt: &R,
    words: &[String],
) -> Result<()> {
    match words {
        [call, campaign] => one(rt, call.as_str(), campaign.as_str()),
        files => {
            every(rt)?;
            stored_programs::report(rt, files)?;
            damaged(rt)
        }
    }
}

/// Gives the layers random programs and schedules, damaged chronicles, and writers that fail.
fn damaged<R: Print + AllocGlobal>(rt: &R) -> Result<()> {
    bytecode::report(rt)?;
    audit_calls::report(rt)?;
    reader_calls::report(rt)?;
    write_failures::report(rt)
}

/// Makes the call `name` on the campaign `campaign`. Fails if there is no such call or campaign.
fn one<R: Print + Threads + Wait + Sync + AllocGlobal>(
    rt: &R,
    name: &str,
    campaign: &str,
) -> Result<()> {
    match (named(name), SampleCampaign::named(campaign)) {
        (Some(call), Some(campaign)) => campaign_calls::report(rt, name, call, campaign),
        _ => bail!("there is no such call, or no such campaign"),
    }
}

/// Makes every call that allocates memory on every sample campaign.
fn every<R: Print + Threads + Wait + Sync + AllocGlobal>(rt: &R) -> Result<()> {
    for &(name, call) in CALLS {
        for campaign in CAMPAIGNS {
            campaign_calls::report(rt, name, call, *campaign)?;
        }
    }
    Ok(())
}
