//! The section of a page that shows the schedule of a campaign. Every function here that returns a `Result` fails only
//! if memory runs out.
ghost use Rattle.std.specs.Prelude.{◌≡◌, ◌==◌, length, option_map, string_bytes, IfOk};
ghost use Rattle.std.specs.List.{list_all};
ghost use Rattle.html.specs.Page.{paragraph};
ghost use Rattle.show_page.specs.Account.{behind_words, course_told, recorded_words, schedule_heading, schedule_section, schedule_told, unscheduled_words};

use crate::printers::schedule_printer;
use crate::room::{ROOM_FOR_SCHEDULE, lines_told, roomed};
use campaign_orders::schedule_text;
use html::{Section, put_paragraph};
use std::alloc::{AllocError, Global};
use world::{Schedule, ScheduleLine};

/// Returns the section with the schedule by which a campaign was played. If there is none, the section says that the
/// campaign comes from a chronicle.
///
/// # Errors
///
/// Fails if there is no memory for the text.
pub fn schedule_section(alloc: Global, schedule: Option<&Schedule>) -> Result<Section, AllocError>
    ensures { IfOk result (λ section. section ≡ schedule_section (option_map (λ s. s.now) schedule.entry)) }
{
    let told = course_told(alloc, schedule)?;
    roomed(
        alloc,
        schedule_heading(),
        ROOM_FOR_SCHEDULE,
        schedule_printer(),
        told,
    )
}

/// Returns the HTML of a schedule. If there is none, returns a paragraph that says that the campaign comes from a
/// chronicle.
fn course_told(alloc: Global, schedule: Option<&Schedule>) -> Result<String, AllocError>
    ensures { IfOk result (λ told. string_bytes told ≡ course_told (option_map (λ s. s.now) schedule.entry)) }
{
    match schedule {
        None => said(alloc, recorded_words()),
        Some(schedule) => schedule_told(alloc, schedule),
    }
}

/// Returns the HTML of a schedule: its lines, and a paragraph on what happens in a round after its line. If the
/// schedule has no entries, returns a paragraph that says so.
fn schedule_told(alloc: Global, schedule: &Schedule) -> Result<String, AllocError>
    ensures { IfOk result (λ told. string_bytes told ≡ schedule_told schedule.now) }
{
    if is_silent(schedule) {
        return said(alloc, unscheduled_words());
    }
    let text = schedule_text(alloc, schedule)?;
    let mut told = lines_told(alloc, ROOM_FOR_SCHEDULE, schedule_printer(), text.as_str())?;
    put_paragraph(&mut told, behind_words())?;
    Ok(told)
}

/// Checks whether a schedule has no entries.
fn is_silent(schedule: &Schedule) -> bool
    ensures { result ≡ list_all (λ line. length line == 0) schedule.now }
{
    schedule.lines.iter().all(|line| is_empty(line))
}

/// Checks whether a line of a schedule has no entries.
fn is_empty(line: &ScheduleLine) -> bool
    ensures { result ≡ (length line.now == 0) }
{
    line.repeats.is_empty()
}

/// Returns an HTML paragraph with these words.
fn said(alloc: Global, words: &str) -> Result<String, AllocError>
    ensures { IfOk result (λ told. string_bytes told ≡ paragraph words.now) }
{
    let mut told = String::new(alloc);
    put_paragraph(&mut told, words)?;
    Ok(told)
}

/// Returns the heading of the section with the schedule.
#[tactic(auto, unfolding(crate::specs::Account::schedule_heading))]
fn schedule_heading() -> &'static str
    ensures { result.now ≡ schedule_heading }
{
    "Who acts when"
}

/// Returns the words for a campaign that comes from a chronicle.
#[tactic(auto, unfolding(crate::specs::Account::recorded_words))]
fn recorded_words() -> &'static str
    ensures { result.now ≡ recorded_words }
{
    "As in the chronicle: the accesses to the board are made in its order."
}

/// Returns the words about what happens in a round after its line of the schedule.
#[tactic(auto, unfolding(crate::specs::Account::behind_words))]
fn behind_words() -> &'static str
    ensures { result.now ≡ behind_words }
{
    "After a round's line, and in a round without one, the loyal generals who have not written do so, and \
     then each traitor acts until he ends, in the order of their numbers."
}

/// Returns the words for a campaign that was played by no schedule, or by one without entries.
#[tactic(auto, unfolding(crate::specs::Account::unscheduled_words))]
fn unscheduled_words() -> &'static str
    ensures { result.now ≡ unscheduled_words }
{
    "Without a schedule: in each round the loyal generals write, and then each traitor acts until he ends, in \
     the order of their numbers."
}
