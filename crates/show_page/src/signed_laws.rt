//! Laws of the pages of campaigns with signed messages. Each function does nothing, and its contract is the law.
ghost use Rattle.show_page.specs.SignedLaws.{SignedPagesAreElements, SignedPagesAreShort};

/// Does nothing. Its contract says that the page of a signed campaign is a document type line, one XML element, and a
/// line feed. This does not depend on what the scenario's text and the chronicle contain.
pub fn signed_pages_are_elements()
    ensures { SignedPagesAreElements }
{}

/// Does nothing. Its contract says that the page of a signed campaign within its limits has at most 2,000,000 bytes,
/// whatever the scenario's text, the schedule and the letters contain.
pub fn signed_pages_are_short()
    ensures { SignedPagesAreShort }
{}
