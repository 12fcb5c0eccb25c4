//! Writes the counts of a survey's outcomes as lines, and a line for each of its campaigns.
ghost use Rattle.std.specs.Prelude.{◌≡◌, ◌++◌, IfOk, OnOk, flat_map, string_bytes};
ghost use Rattle.surveys.specs.Lines.{line_text};
ghost use Rattle.surveys.specs.Counts.{campaigns_text, sums_text, tally_text};

use crate::finding::Finding;
use crate::lines::put_line;
use crate::sums::{Sums, Tally};
use std::alloc::{AllocError, Global};

/// Appends the line of an outcome, such as `agreement broken 3 first seed 17`. The seed is the least of a campaign with
/// this outcome, and is left out if there is none.
fn put_tally(out: &mut String, name: &str, tally: Tally) -> Result<(), AllocError>
    ensures { OnOk result (string_bytes out.new ≡ string_bytes out.old ++ tally_text name.now tally) }
{
    let count = tally.count;
    match tally.first {
        Some(seed) => writeln!(out, "{name} {count} first seed {seed}"),
        None => writeln!(out, "{name} {count}"),
    }
}

/// Appends the line with the number of campaigns, such as `campaigns 100`.
fn put_campaigns(out: &mut String, campaigns: u64) -> Result<(), AllocError>
    ensures { OnOk result (string_bytes out.new ≡ string_bytes out.old ++ campaigns_text campaigns) }
{
    writeln!(out, "campaigns {campaigns}")
}

/// Returns the counts of a survey's outcomes: a line with the number of campaigns, and a line for each outcome. This
/// line has the number of campaigns with the outcome and the least of their seeds.
///
/// # Errors
///
/// Fails with `AllocError` if it runs out of memory.
#[tactic(auto, unfolding(crate::specs::Counts::sums_text))]
pub fn sums_text(alloc: Global, sums: Sums) -> Result<String, AllocError>
    ensures { IfOk result (λ text. string_bytes text ≡ sums_text sums) }
{
    let mut out = String::new(alloc);
    put_campaigns(&mut out, sums.campaigns)?;
    put_tally(&mut out, "bound kept", sums.kept)?;
    put_tally(&mut out, "agreement broken", sums.broken)?;
    put_tally(&mut out, "order disobeyed", sums.disobeyed)?;
    Ok(out)
}

/// Returns a line for each campaign, in the given order: a JSON object and a line feed.
///
/// # Errors
///
/// Fails with `AllocError` if it runs out of memory.
pub fn lines_text(alloc: Global, findings: &[Finding]) -> Result<String, AllocError>
    ensures { IfOk result (λ text. string_bytes text ≡ flat_map line_text findings.now) }
{
    let mut out = String::new(alloc);
    for finding in findings {
        put_line(&mut out, finding)?;
    }
    Ok(out)
}
