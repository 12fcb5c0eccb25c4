//! Writes a campaign with signed messages as an HTML page.
ghost use Rattle.std.specs.Prelude.{◌≡◌, ◌++◌, codes, option_map, string_bytes, IfOk, OnOk};
ghost use Rattle.show_page.specs.Account.{accesses_section, chronicle_section, programs_section};
ghost use Rattle.show_chains.specs.Svg.{signed_words};
ghost use Rattle.show_page.specs.SignedAccount.{diagram_section, parts, signed_page_text, verdict_part};
ghost use Rattle.trace.specs.SignedText.{signed_text};

use crate::accesses::accesses_section;
use crate::account::{chronicle_section, picture_section, sheet_of};
use crate::lieutenants::lieutenants_section;
use crate::room::ROOM_FOR_SECTIONS;
use crate::scenario::scenario_section;
use crate::schedule::schedule_section;
use crate::sections::programs_section;
use crate::signed_verdict::put_verdict;
use html::{Section, finish, put_sections, start};
use round::Scenario;
use show_chains::{put_signed_words, signed_campaign_svg};
use signed::SignedChronicle;
use std::alloc::{AllocError, Global};
use trace::{Latch, write_signed};
use world::Schedule;

/// Returns a signed campaign as one page of HTML. `scenario_text` is the text of the chronicle's scenario. `schedule`
/// is the schedule by which the campaign was played, or `None` if it comes from a chronicle.
///
/// # Errors
///
/// Fails if there is no memory for the text.
pub fn signed_page_text(
    alloc: Global,
    scenario_text: &str,
    schedule: Option<&Schedule>,
    chronicle: &SignedChronicle,
) -> Result<String, AllocError>
    ensures { IfOk result (λ text. string_bytes text
        ≡ signed_page_text scenario_text.now (option_map (λ s. s.now) schedule.entry) chronicle.now) }
{
    let title = signed_title(alloc, chronicle.scenario())?;
    let mut out = start(alloc, title.as_str())?;
    put_parts(alloc, &mut out, scenario_text, schedule, chronicle)?;
    finish(&mut out)?;
    Ok(out)
}

/// Appends the verdict, and then all sections of the page of a signed campaign.
fn put_parts(
    alloc: Global,
    out: &mut String,
    scenario_text: &str,
    schedule: Option<&Schedule>,
    chronicle: &SignedChronicle,
) -> Result<(), AllocError>
    ensures { OnOk result (string_bytes out.new ≡ string_bytes out.old
        ++ parts scenario_text.now (option_map (λ s. s.now) schedule.entry) chronicle.now) }
{
    let picture = diagram_section(alloc, chronicle)?;
    let lieutenants = lieutenants_section(alloc, chronicle)?;
    let scenario = scenario_section(alloc, scenario_text)?;
    let programs = programs_of(alloc, chronicle)?;
    let time = schedule_section(alloc, schedule)?;
    let accesses = accesses_of(alloc, chronicle)?;
    let text = section_of(alloc, chronicle)?;
    let sections = [
        picture,
        lieutenants,
        scenario,
        programs,
        time,
        accesses,
        text,
    ];
    put_verdict_of(out, chronicle)?;
    put_sections(out, ROOM_FOR_SECTIONS, &sections)?;
    Ok(())
}

/// Returns the section with the programs of the campaign's traitors.
fn programs_of(alloc: Global, chronicle: &SignedChronicle) -> Result<Section, AllocError>
    ensures { IfOk result (λ section. section ≡ programs_section chronicle.now.scenario) }
{
    programs_section(alloc, chronicle.scenario())
}

/// Returns the section with the campaign's accesses to the board.
fn accesses_of(alloc: Global, chronicle: &SignedChronicle) -> Result<Section, AllocError>
    ensures { IfOk result (λ section. section ≡ accesses_section chronicle.now.accesses) }
{
    accesses_section(alloc, chronicle.accesses())
}

/// Appends the verdict of a signed campaign's chronicle.
fn put_verdict_of(out: &mut String, chronicle: &SignedChronicle) -> Result<(), AllocError>
    ensures { OnOk result (string_bytes out.new ≡ string_bytes out.old
        ++ verdict_part chronicle.now.verdict) }
{
    put_verdict(out, chronicle.verdict())
}

/// Returns the title of the page, which describes the campaign and says that its messages are signed.
fn signed_title(alloc: Global, scenario: &Scenario) -> Result<String, AllocError>
    ensures { IfOk result (λ text. string_bytes text ≡ signed_words scenario.now) }
{
    let mut words = String::new(alloc);
    put_signed_words(&mut words, scenario)?;
    Ok(words)
}

/// Returns the section with the space-time diagram of a signed campaign.
fn diagram_section(alloc: Global, chronicle: &SignedChronicle) -> Result<Section, AllocError>
    ensures { IfOk result (λ section. section ≡ diagram_section chronicle.now) }
{
    let svg = signed_campaign_svg(alloc, chronicle)?;
    let sheet = sheet_of(alloc, chronicle.scenario(), chronicle.accesses())?;
    picture_section(alloc, sheet, svg.as_str())
}

/// Returns the section with the text of a signed campaign's chronicle.
fn section_of(alloc: Global, chronicle: &SignedChronicle) -> Result<Section, AllocError>
    ensures { IfOk result (λ section. section ≡ chronicle_section (signed_text chronicle.now)) }
{
    let text = chronicle_text(alloc, chronicle)?;
    chronicle_section(alloc, text.as_slice())
}

/// Returns the text of a signed campaign's chronicle.
fn chronicle_text(alloc: Global, chronicle: &SignedChronicle) -> Result<Vec<u8>, AllocError>
    ensures { IfOk result (λ text. text.items ≡ signed_text chronicle.now) }
{
    let mut latch = Latch::new(Vec::new(alloc));
    match write_signed(chronicle, &mut latch) {
        Ok(()) => Ok(latch.into_writer()),
        Err(_) => Err(AllocError),
    }
}
