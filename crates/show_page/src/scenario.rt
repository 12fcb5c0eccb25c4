//! The section of a page that shows the scenario of a campaign, with the story at its head. Every function here that
//! returns a `Result` fails only if memory runs out.
ghost use Rattle.std.specs.Prelude.{◌≡◌, string_bytes, IfOk};
ghost use Rattle.show_page.specs.Account.{scenario_heading, scenario_instead, scenario_section, scenario_told, story_told};

use crate::printers::scenario_printer;
use crate::room::{ROOM_FOR_SCENARIO, ROOM_FOR_SECTIONS, ROOM_FOR_STORY, put_fitted, put_over};
use crate::story::parted;
use html::{Section, put_lines};
use std::alloc::{AllocError, Global};

/// Returns the section with the scenario's text, in which the story is separated from the other lines. If the page has
/// no room for the text, the section shows only the story.
///
/// # Errors
///
/// Fails if there is no memory for the text.
pub fn scenario_section(alloc: Global, text: &str) -> Result<Section, AllocError>
    ensures { IfOk result (λ section. section ≡ scenario_section text.now) }
{
    let told = scenario_told(alloc, text)?;
    let instead = scenario_instead(alloc, text)?;
    let (story, _) = parted(text);
    Ok(Section {
        title: scenario_heading(story),
        told,
        room: ROOM_FOR_SCENARIO,
        instead,
    })
}

/// Returns the HTML of a scenario: its story, and then its other lines. If the text is longer than all sections
/// together may be, returns what replaces it: the story, and where to find the text.
fn scenario_told(alloc: Global, text: &str) -> Result<String, AllocError>
    ensures { IfOk result (λ told. string_bytes told ≡ scenario_told text.now) }
{
    if text.len() > ROOM_FOR_SECTIONS {
        return scenario_instead(alloc, text);
    }
    let (story, behind) = parted(text);
    let mut told = story_told(alloc, story)?;
    put_lines(&mut told, behind)?;
    Ok(told)
}

/// Returns what replaces a scenario for which the page has no room: the story, if there is room for it, and a paragraph
/// that says where to find the text.
fn scenario_instead(alloc: Global, text: &str) -> Result<String, AllocError>
    ensures { IfOk result (λ told. string_bytes told ≡ scenario_instead text.now) }
{
    let (story, _) = parted(text);
    let who = scenario_printer();
    let lines = story_told(alloc, story)?;
    let mut told = String::new(alloc);
    put_fitted(alloc, &mut told, ROOM_FOR_STORY, who, lines.as_str())?;
    put_over(alloc, &mut told, ROOM_FOR_SCENARIO, who)?;
    Ok(told)
}

/// Returns the lines of a story as HTML, or an empty text if there is no story.
fn story_told(alloc: Global, story: &str) -> Result<String, AllocError>
    ensures { IfOk result (λ told. string_bytes told ≡ story_told story.now) }
{
    let mut told = String::new(alloc);
    if story.is_empty() {
        return Ok(told);
    }
    put_lines(&mut told, story)?;
    Ok(told)
}

/// Returns the heading of the scenario's section, which mentions the story unless `story` is empty.
#[tactic(auto, unfolding(crate::specs::Account::scenario_heading))]
fn scenario_heading(story: &str) -> &'static str
    ensures { result.now ≡ scenario_heading story.now }
{
    if story.is_empty() {
        "Scenario"
    } else {
        "Story and scenario"
    }
}
