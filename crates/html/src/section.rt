//! A section of an HTML page, with a replacement for its text if the page has no room for it.
ghost use Rattle.std.specs.Prelude.{◌≡◌, length};
ghost use Rattle.html.specs.Sections.{more, sure};

use std::marker::Model;

/// A section of an HTML page: a heading, the HTML below it, and a replacement for this HTML if the page has no room for
/// it.
#[derive(Drop)]
pub struct Section {
    /// The heading of the section.
    pub title: &'static str,
    /// The HTML below the heading. If it is empty, the section is left out with its heading.
    pub told: String,
    /// The number of bytes for which the page always has room.
    pub room: usize,
    /// The HTML that is written in place of `told` if the page has no room for it.
    pub instead: String,
}

impl Model for Section {
    ghost use Rattle.std.specs.Prelude.{string_bytes};
    ghost use Rattle.html.specs.Sections.{Section as Telling};

    ghost Value = { Telling };

    ghost view = { λ s. record {
      title = s.title.now;
      told = string_bytes s.told;
      room = s.room;
      instead = string_bytes s.instead;
    } };
}

impl Section {
    /// Returns how many bytes are reserved for the section, without its heading: the length of its text if this fits
    /// into the section's own room, and otherwise the length of its replacement.
    pub(crate) fn sure(&self) -> usize
        ensures { result ≡ length (sure self.now) }
    {
        if self.told.len() <= self.room {
            self.told.len()
        } else {
            self.instead.len()
        }
    }

    /// Returns how many bytes more than the reserved ones the section takes if it is written in full.
    pub(crate) fn more(&self) -> usize
        ensures { result ≡ more self.now }
    {
        self.told.len().saturating_sub(self.sure())
    }
}
