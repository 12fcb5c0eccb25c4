//! Writes a campaign with oral messages as an HTML page. Every function here that returns a `Result` fails only if
//! memory runs out.
ghost use Rattle.std.specs.Prelude.{◌≡◌, ◌++◌, encode_utf8, flat_map, option_map, string_bytes, IfOk, OnOk};
ghost use Rattle.show_page.specs.Account.{accesses_section, chronicle_heading, chronicle_section, diagram_section, hinted, page_text, parts, picture_heading, picture_hint, picture_name, picture_section, programs_section, sheet_for, sheet_of, title};
ghost use Rattle.trace.specs.Text.{chronicle_text};

use crate::accesses::accesses_section;
use crate::printers::{chronicle_printer, picture_printer};
use crate::room::{
    LARGE_SHEET, ROOM_FOR_CHRONICLE, ROOM_FOR_PICTURE, ROOM_FOR_SECTIONS, SMALL_SHEET, lines_told,
    roomed,
};
use crate::scenario::scenario_section;
use crate::schedule::schedule_section;
use crate::sections::{lieutenants_section, programs_section};
use crate::verdict::put_verdict;
use board::Access;
use book::Heard;
use html::{Section, Sheet, finish, put_paragraph, put_picture, put_sections, start};
use round::Scenario;
use show_diagram::campaign_svg;
use show_diagram::layout::width;
use show_diagram::svg::put_campaign;
use std::alloc::{AllocError, Global};
use trace::{Latch, write_chronicle};
use world::{Chronicle, Schedule};

/// Returns a campaign as one page of HTML. `table` is the message table of the chronicle's letters, and `scenario_text`
/// is the text of the chronicle's scenario. `schedule` is the schedule by which the campaign was played, or `None` if
/// it comes from a chronicle.
///
/// # Errors
///
/// Fails if there is no memory for the text.
pub fn page_text<H: Heard>(
    alloc: Global,
    scenario_text: &str,
    schedule: Option<&Schedule>,
    table: &H,
    chronicle: &Chronicle,
) -> Result<String, AllocError>
    ensures { IfOk result (λ text. string_bytes text
        ≡ page_text scenario_text.now (option_map (λ s. s.now) schedule.entry) (H.seen table.now) chronicle.now) }
{
    let title = title(alloc, chronicle.scenario())?;
    let mut out = start(alloc, title.as_str())?;
    put_parts(alloc, &mut out, scenario_text, schedule, table, chronicle)?;
    finish(&mut out)?;
    Ok(out)
}

/// Appends the verdict, and then all sections of the page of a campaign.
fn put_parts<H: Heard>(
    alloc: Global,
    out: &mut String,
    scenario_text: &str,
    schedule: Option<&Schedule>,
    table: &H,
    chronicle: &Chronicle,
) -> Result<(), AllocError>
    ensures { OnOk result (string_bytes out.new ≡ string_bytes out.old
        ++ parts scenario_text.now (option_map (λ s. s.now) schedule.entry) (H.seen table.now) chronicle.now) }
{
    let picture = diagram_section(alloc, table, chronicle)?;
    let lieutenants = lieutenants_section(alloc, table, chronicle)?;
    let scenario = scenario_section(alloc, scenario_text)?;
    let programs = programs_of(alloc, chronicle)?;
    let time = schedule_section(alloc, schedule)?;
    let accesses = accesses_of(alloc, chronicle)?;
    let text = section_of(alloc, chronicle)?;
    let sections = [
        picture,
        lieutenants,
        scenario,
        programs,
        time,
        accesses,
        text,
    ];
    put_verdict(out, chronicle)?;
    put_sections(out, ROOM_FOR_SECTIONS, &sections)?;
    Ok(())
}

/// Returns the section with the programs of the campaign's traitors.
fn programs_of(alloc: Global, chronicle: &Chronicle) -> Result<Section, AllocError>
    ensures { IfOk result (λ section. section ≡ programs_section chronicle.now.scenario) }
{
    programs_section(alloc, chronicle.scenario())
}

/// Returns the section with the campaign's accesses to the board.
fn accesses_of(alloc: Global, chronicle: &Chronicle) -> Result<Section, AllocError>
    ensures { IfOk result (λ section. section ≡ accesses_section chronicle.now.accesses) }
{
    accesses_section(alloc, chronicle.accesses())
}

/// Returns the title of the page, which describes the campaign: its number of generals, its bound, its commander and
/// his order.
fn title(alloc: Global, scenario: &Scenario) -> Result<String, AllocError>
    ensures { IfOk result (λ text. string_bytes text ≡ title scenario.now) }
{
    let mut words = String::new(alloc);
    put_campaign(
        &mut words,
        scenario.generals(),
        scenario.bound(),
        scenario.commander(),
        scenario.order(),
    )?;
    Ok(words)
}

/// Returns the section with the space-time diagram of a campaign.
fn diagram_section<H: Heard>(
    alloc: Global,
    table: &H,
    chronicle: &Chronicle,
) -> Result<Section, AllocError>
    ensures { IfOk result (λ section. section ≡ diagram_section (H.seen table.now) chronicle.now) }
{
    let svg = campaign_svg(alloc, table, chronicle)?;
    let sheet = sheet_of(alloc, chronicle.scenario(), chronicle.accesses())?;
    picture_section(alloc, sheet, svg.as_str())
}

/// Returns the paper on which the diagram of a campaign with these accesses is printed.
///
/// # Errors
///
/// Fails if there is no memory for the words of an access.
pub fn sheet_of(
    alloc: Global,
    scenario: &Scenario,
    accesses: &[Access],
) -> Result<Sheet, AllocError>
    ensures { IfOk result (λ sheet. sheet ≡ sheet_of scenario.now accesses.now) }
{
    Ok(sheet_for(width(alloc, scenario.generals(), accesses)?))
}

/// Returns the paper for a diagram that is `width` units of SVG wide, on which its letters can be read.
fn sheet_for(width: u128) -> Sheet
    ensures { result ≡ sheet_for width }
{
    if width > LARGE_SHEET {
        Sheet::Several
    } else if width > SMALL_SHEET {
        Sheet::Large
    } else {
        Sheet::Small
    }
}

/// Returns the section with a diagram in SVG, which is printed on this sheet, and with a hint on how to get the diagram
/// as a separate file.
///
/// # Errors
///
/// Fails if there is no memory for the text.
pub fn picture_section(alloc: Global, sheet: Sheet, svg: &str) -> Result<Section, AllocError>
    ensures { IfOk result (λ section. section ≡ picture_section sheet svg.now) }
{
    let mut told = String::new(alloc);
    put_hinted(&mut told, sheet, svg)?;
    roomed(
        alloc,
        picture_heading(),
        ROOM_FOR_PICTURE,
        picture_printer(),
        told,
    )
}

/// Appends a diagram, which is in SVG, and then a hint on how to get it as a separate file.
fn put_hinted(out: &mut String, sheet: Sheet, svg: &str) -> Result<(), AllocError>
    ensures { OnOk result (string_bytes out.new ≡ string_bytes out.old ++ hinted sheet svg.now) }
{
    put_picture(out, sheet, picture_name(), svg)?;
    put_paragraph(out, picture_hint())
}

/// Returns the section with the text of a campaign's chronicle.
fn section_of(alloc: Global, chronicle: &Chronicle) -> Result<Section, AllocError>
    ensures { IfOk result (λ section. section ≡ chronicle_section (chronicle_text chronicle.now)) }
{
    let text = chronicle_text(alloc, chronicle)?;
    chronicle_section(alloc, text.as_slice())
}

/// Returns the section with this text of a chronicle.
pub fn chronicle_section(alloc: Global, text: &[u8]) -> Result<Section, AllocError>
    ensures { IfOk result (λ section. section ≡ chronicle_section text.now) }
{
    let text = text_of(alloc, text)?;
    let who = chronicle_printer();
    let told = lines_told(alloc, ROOM_FOR_CHRONICLE, who, text.as_str())?;
    roomed(alloc, chronicle_heading(), ROOM_FOR_CHRONICLE, who, told)
}

/// Returns the text of a campaign's chronicle.
fn chronicle_text(alloc: Global, chronicle: &Chronicle) -> Result<Vec<u8>, AllocError>
    ensures { IfOk result (λ text. text.items ≡ chronicle_text chronicle.now) }
{
    let mut latch = Latch::new(Vec::new(alloc));
    match write_chronicle(chronicle, &mut latch) {
        Ok(()) => Ok(latch.into_writer()),
        Err(_) => Err(AllocError),
    }
}

/// Converts bytes to text: each byte becomes the Unicode character with this number.
fn text_of(alloc: Global, bytes: &[u8]) -> Result<String, AllocError>
    ensures { IfOk result (λ text. string_bytes text ≡ flat_map encode_utf8 bytes.now) }
{
    let mut text = String::with_capacity(alloc, bytes.len())?;
    for byte in bytes {
        put_byte(&mut text, *byte)?;
    }
    Ok(text)
}

/// Appends the Unicode character with this number, 0 to 255.
fn put_byte(out: &mut String, byte: u8) -> Result<(), AllocError>
    ensures { OnOk result (string_bytes out.new ≡ string_bytes out.old ++ encode_utf8 byte) }
{
    out.push(char::from(byte))
}

/// Returns the heading of the section with the diagram.
#[tactic(auto, unfolding(crate::specs::Account::picture_heading))]
fn picture_heading() -> &'static str
    ensures { result.now ≡ picture_heading }
{
    "Who sent what to whom"
}

/// Returns the heading of the section with the chronicle.
#[tactic(auto, unfolding(crate::specs::Account::chronicle_heading))]
fn chronicle_heading() -> &'static str
    ensures { result.now ≡ chronicle_heading }
{
    "Chronicle"
}

/// Returns the name of the diagram, which screen readers read out.
#[tactic(auto, unfolding(crate::specs::Account::picture_name))]
fn picture_name() -> &'static str
    ensures { result.now ≡ picture_name }
{
    "Space-time diagram"
}

/// Returns the hint on how to get the diagram as a separate file.
#[tactic(auto, unfolding(crate::specs::Account::picture_hint))]
fn picture_hint() -> &'static str
    ensures { result.now ≡ picture_hint }
{
    "byzlab draw, with --schedule or --chronicle as here, writes this picture as a file of its own, to enlarge or \
     to print at any size."
}
