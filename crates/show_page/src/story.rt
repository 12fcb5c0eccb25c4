//! Splits the text of a scenario into its story, which is the comments and blank lines at its head, and the text after
//! it.
ghost use Rattle.std.specs.Prelude.{◌≡◌, ◌≤◌, length};
ghost use Rattle.show_page.specs.Story.{behind_story, head_bytes, is_blank, story, story_bytes};
ghost use Rattle.label.specs.Labels.{on};

/// Returns the story of a scenario, and the text after it.
pub(crate) fn parted(text: &str) -> (&str, &str)
    ensures story { result.0.now ≡ story text.now }
    ensures behind { result.1.now ≡ behind_story text.now }
{
    let end = story_bytes(text.as_bytes());
    (&text[..end], &text[end..])
}

/// Returns the length in bytes of a text's story, which is 0 if there is no comment at its head.
fn story_bytes(text: &[u8]) -> usize
    ensures { result ≡ story_bytes text.now }
{
    let end = head_bytes(text);
    if has_comment(&text[..end]) { end } else { 0 }
}

/// Checks whether the head of a scenario, which is its first comments and blank lines, contains a comment.
fn has_comment(head: &[u8]) -> bool
    ensures { result ≡ on head.now 35 }
{
    head.iter().any(|byte| *byte == b'#')
}

/// Returns the length in bytes of the comments and blank lines at the head of a text.
fn head_bytes(text: &[u8]) -> usize
    ensures count { result ≡ head_bytes text.now }
    ensures within { result ≤ length text.now }
{
    let mut within = false;
    let mut end = 0;
    for byte in text {
        if !within && !is_blank(*byte) && *byte != b'#' {
            return end;
        }
        end += 1;
        within = *byte != b'\n' && (within || *byte == b'#');
    }
    end
}

/// Checks whether a byte is a space, a tab, or part of a line end.
fn is_blank(byte: u8) -> bool
    ensures { result ≡ is_blank byte }
{
    byte == b' ' || byte == b'\t' || byte == b'\r' || byte == b'\n'
}
