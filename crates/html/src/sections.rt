//! Writes the sections of an HTML page one after another, and decides which of them are replaced because the page has
//! no room for them. A function that returns a `Result` fails only if memory runs out.
ghost use Rattle.std.specs.Prelude.{◌≡◌, ◌++◌, string_bytes, OnOk};
ghost use Rattle.html.specs.Sections.{fitted_sections, left_by, section, sections_in};

use crate::parts::put_heading;
use crate::section::Section;
use std::alloc::AllocError;

/// Appends sections that together should take at most `room` bytes, not counting their headings. A section for which
/// there is no room is written as its replacement.
///
/// # Errors
///
/// Fails if there is no memory for the text.
pub fn put_sections(out: &mut String, room: usize, sections: &[Section]) -> Result<(), AllocError>
    ensures { OnOk result (string_bytes out.new ≡ string_bytes out.old ++ sections_in room sections.now) }
{
    put_fitted(out, left_by(room, sections), sections)
}

/// Returns how many of `room` bytes remain after the bytes that are reserved for the sections. Returns 0 if `room` is
/// too small for them.
fn left_by(room: usize, sections: &[Section]) -> usize
    ensures { result ≡ left_by room sections.now }
{
    let mut left = room;
    for section in sections {
        left = left.saturating_sub(section.sure());
    }
    left
}

/// Appends sections in full or as their replacements. `left` is how many bytes remain after those that are reserved for
/// the sections. A section that is longer than its reserved bytes gets more of them, in order, if they suffice for its
/// full text.
fn put_fitted(out: &mut String, left: usize, sections: &[Section]) -> Result<(), AllocError>
    ensures { OnOk result (string_bytes out.new ≡ string_bytes out.old ++ fitted_sections left sections.now) }
{
    let mut left = left;
    for section in sections {
        let more = section.more();
        if more <= left {
            put_section(out, section.title, section.told.as_str())?;
            left -= more;
        } else {
            put_section(out, section.title, section.instead.as_str())?;
        }
    }
    Ok(())
}

/// Appends a section: its heading, and the HTML below it. Appends nothing if this HTML is empty.
fn put_section(out: &mut String, title: &str, told: &str) -> Result<(), AllocError>
    ensures { OnOk result (string_bytes out.new ≡ string_bytes out.old ++ section title.now told.now) }
{
    if told.is_empty() {
        return Ok(());
    }
    put_heading(out, title)?;
    out.push_str(told)
}
