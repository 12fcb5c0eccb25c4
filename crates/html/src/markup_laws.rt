//! Laws about escaped text and XML elements. Each function does nothing, and its contract is the law.
ghost use Rattle.html.specs.MarkupLaws.{ElementsAreElements, EscapesArePlain, EscapesAreReadBack};

/// States that an XML reader reads an escaped text as the original text, except that each character that XML forbids
/// has become the replacement character U+FFFD.
pub fn escapes_are_read_back()
    ensures { EscapesAreReadBack }
{}

/// States that escaped text contains no `<`, `>` or quotation mark, and only characters that XML allows in a document.
pub fn escapes_are_plain()
    ensures { EscapesArePlain }
{}

/// States that a well-formed name, well-formed attributes and well-formed content form an XML element, and that an
/// element is well-formed content of another one.
pub fn elements_are_elements()
    ensures { ElementsAreElements }
{}
