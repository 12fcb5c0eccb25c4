//! Laws about HTML pages. Each function does nothing, and its contract is the law.
ghost use Rattle.html.specs.Laws.{PagesAreElements, PartsAreContent, SectionsAreFitted, TextsAreText, TextsAreVisible};

/// States that text which a page shows contains no markup: no `<`, no `>`, no double quotation mark, and `&` only at
/// the start of a reference such as `&lt;`.
pub fn texts_are_text()
    ensures { TextsAreText }
{}

/// States that text which a page shows contains no hidden character: no control character except white space, no mark
/// that changes the direction of text, and no character without width. specs/Visible lists these characters.
pub fn texts_are_visible()
    ensures { TextsAreVisible }
{}

/// States that each part of a page, such as a heading or a table, is well-formed XML content if the parts inside it
/// are. The text that it shows may be any text.
pub fn parts_are_content()
    ensures { PartsAreContent }
{}

/// States that a page whose parts are well-formed consists of a document type line, one XML element and a line feed.
pub fn pages_are_elements()
    ensures { PagesAreElements }
{}

/// States which sections a page shows in full when it has room for only a number of bytes. Each section has a room of
/// its own, in bytes, and a replacement for its text, which must fit into this room.
///
/// - If the rooms of all sections fit into the page's room, all sections together take at most the page's room and the
///   bytes of their headings.
/// - A section that fits into its own room is shown in full. All sections are shown in full if the page has room for
///   them.
/// - A section is replaced only if its text is longer than the room that the other sections leave.
/// - For each section the page shows either its full text or its replacement. The result is well-formed content if each
///   section is.
pub fn sections_are_fitted()
    ensures { SectionsAreFitted }
{}
