//! Limits on the length of a page. Each section has a room in bytes, and a text that replaces it if there is no room
//! for it. Every function here that returns a `Result` fails only if memory runs out.
ghost use Rattle.std.specs.Prelude.{◌≡◌, ◌++◌, string_bytes, IfOk, OnOk};
ghost use Rattle.show_page.specs.Room.{fitted, lines_told, over, over_words, roomed, share, units_words};

use html::{Section, put_lines, put_paragraph};
use std::alloc::{AllocError, Global};

/// How many bytes of HTML all sections may have together, which is the sum of their rooms. A section may use what other
/// sections leave of their rooms.
pub const ROOM_FOR_SECTIONS: usize = 1_987_000;

/// How many bytes of HTML the scenario's section may always have.
pub(crate) const ROOM_FOR_SCENARIO: usize = 151_000;

/// How many bytes of HTML the story at the head of the scenario may have, if there is no room for the whole scenario.
pub(crate) const ROOM_FOR_STORY: usize = 20_000;

/// How many bytes of HTML the schedule's section may always have.
pub(crate) const ROOM_FOR_SCHEDULE: usize = 31_000;

/// How many bytes of HTML the section of the traitors' programs may always have.
pub(crate) const ROOM_FOR_PROGRAMS: usize = 150_000;

/// How many bytes of HTML the diagram's section may always have.
pub(crate) const ROOM_FOR_PICTURE: usize = 600_000;

/// How many bytes of HTML the section about the lieutenants may always have.
pub(crate) const ROOM_FOR_LIEUTENANTS: usize = 525_000;

/// How many bytes of HTML the section of the accesses may always have.
pub(crate) const ROOM_FOR_ACCESSES: usize = 130_000;

/// How many bytes of HTML the chronicle's section may always have.
pub(crate) const ROOM_FOR_CHRONICLE: usize = 400_000;

/// Returns how many bytes of HTML each program may have, if there is no room for all of them in full: 145,000, divided
/// by `generals + 1`.
pub(crate) fn share(generals: u8) -> usize
    ensures { result ≡ share generals }
{
    145_000 / (usize::from(generals) + 1)
}

/// The greatest number of units of a program that a page explains.
pub(crate) const ROOM_FOR_UNITS: usize = 256;

/// The greatest width of a diagram that is printed on a sheet like those of the text, in units of SVG. It does not
/// include the margins, which are 16 units in all.
pub(crate) const SMALL_SHEET: u128 = 1400;

/// The greatest width of a diagram that is printed on one sheet of A3, likewise.
pub(crate) const LARGE_SHEET: u128 = 2400;

/// Returns a section with this title, text and room in bytes. If the page has no room for the text, a paragraph
/// replaces it. It says that the text is too long and, in the words of `who`, where to find it.
///
/// # Errors
///
/// Fails if there is no memory for the text.
pub(crate) fn roomed(
    alloc: Global,
    title: &'static str,
    room: usize,
    who: &str,
    told: String,
) -> Result<Section, AllocError>
    ensures { IfOk result (λ section. section ≡ roomed title.now room who.now (string_bytes told)) }
{
    let mut instead = String::new(alloc);
    put_over(alloc, &mut instead, room, who)?;
    Ok(Section {
        title,
        told,
        room,
        instead,
    })
}

/// Appends `told`, a part of a section, if it has at most `room` bytes. Otherwise appends a paragraph in its place. It
/// says that the part is too long and, in the words of `who`, where to find it.
pub(crate) fn put_fitted(
    alloc: Global,
    out: &mut String,
    room: usize,
    who: &str,
    told: &str,
) -> Result<(), AllocError>
    ensures { OnOk result (string_bytes out.new ≡ string_bytes out.old ++ fitted room who.now told.now) }
{
    if told.len() > room {
        return put_over(alloc, out, room, who);
    }
    out.push_str(told)
}

/// Returns a text as preformatted lines of HTML. If the text is longer than all sections together may be, returns a
/// paragraph in its place. It says that the text is longer than `room` bytes and, in the words of `who`, where to find
/// it.
pub(crate) fn lines_told(
    alloc: Global,
    room: usize,
    who: &str,
    text: &str,
) -> Result<String, AllocError>
    ensures { IfOk result (λ told. string_bytes told ≡ lines_told room who.now text.now) }
{
    let mut told = String::new(alloc);
    if text.len() > ROOM_FOR_SECTIONS {
        put_over(alloc, &mut told, room, who)?;
        return Ok(told);
    }
    put_lines(&mut told, text)?;
    Ok(told)
}

/// Appends a paragraph that says that a part of a page is longer than `room` bytes and, in the words of `who`, where to
/// find it.
pub(crate) fn put_over(
    alloc: Global,
    out: &mut String,
    room: usize,
    who: &str,
) -> Result<(), AllocError>
    ensures { OnOk result (string_bytes out.new ≡ string_bytes out.old ++ over room who.now) }
{
    let words = over_words(alloc, room, who)?;
    put_paragraph(out, words.as_str())
}

/// Returns the sentence that a part of a page is longer than `room` bytes. It ends with `who`, the words that say where
/// to find this part.
#[tactic(auto, unfolding(crate::specs::Room::over_words))]
fn over_words(alloc: Global, room: usize, who: &str) -> Result<String, AllocError>
    ensures { IfOk result (λ words. string_bytes words ≡ over_words room who.now) }
{
    format!(in alloc; "This part is longer than its share, {room} bytes of HTML: {who}")
}

/// Returns the sentence that a program has `count` units, too many to be explained on a page. It ends with `who`, the
/// words that say where to find the explanation.
#[tactic(auto, unfolding(crate::specs::Room::units_words))]
pub(crate) fn units_words(alloc: Global, count: usize, who: &str) -> Result<String, AllocError>
    ensures { IfOk result (λ words. string_bytes words ≡ units_words count who.now) }
{
    format!(in alloc; "{count} units are more than the 256 that a page explains: {who}")
}
