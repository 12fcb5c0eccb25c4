//! The law of texts that are displayed on a terminal. The function does nothing, and its contract is the law.
ghost use Rattle.streams.specs.Laws.{EscapedTextsArePlain};

/// States that the display of an `Escaped` text contains no control character except the one that it keeps. A text
/// without control characters is displayed unchanged.
pub fn escaped_texts_are_plain()
    ensures { EscapedTextsArePlain }
{}
