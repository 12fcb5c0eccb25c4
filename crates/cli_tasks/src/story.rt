//! The story of a scenario: the comments and blank lines before its first key, which a page shows.
ghost use Rattle.std.specs.Prelude.{◌≡◌, ◌++◌, IfOk, OnOk};
ghost use Rattle.cli_tasks.specs.Story.{is_blank, is_page, story, story_on, with_story};

use cli_words::Task;
use std::alloc::{AllocError, Global};

/// Returns the bytes that are read as the scenario. `own` is the scenario as the user wrote it. `bytes` is the same
/// scenario with the content of the named files in it, and has lost the comments. For a page the comments and blank
/// lines at the head of `own` are therefore put before `bytes`, unless the two are equal.
///
/// # Errors
///
/// Fails with `AllocError` if memory runs out.
pub fn with_story(
    alloc: Global,
    task: &Task,
    own: &[u8],
    bytes: Vec<u8>,
) -> Result<Vec<u8>, AllocError>
    ensures { IfOk result (λ text. text.items ≡ with_story task.now own.now bytes.items) }
{
    if !is_page(task) || bytes.as_slice() == own {
        return Ok(bytes);
    }
    let mut text = story(alloc, own)?;
    text.extend_from_slice(bytes.as_slice())?;
    Ok(text)
}

/// Checks whether the task is `page`.
fn is_page(task: &Task) -> bool
    ensures { result ≡ is_page task.now }
{
    matches!(task, Task::Page { .. })
}

/// Checks whether a byte is a space, a tab, a carriage return or a line feed.
fn is_blank(byte: u8) -> bool
    ensures { result ≡ is_blank byte }
{
    byte == b' ' || byte == b'\t' || byte == b'\r' || byte == b'\n'
}

/// Returns the comments and blank lines at the head of a scenario's text: all bytes before its first key or table.
fn story(alloc: Global, bytes: &[u8]) -> Result<Vec<u8>, AllocError>
    ensures { IfOk result (λ text. text.items ≡ story bytes.now) }
{
    let mut text = Vec::new(alloc);
    let mut within = false;
    for byte in bytes {
        if !within && !is_blank(*byte) && *byte != b'#' {
            return Ok(text);
        }
        text.push(*byte)?;
        within = *byte != b'\n' && (within || *byte == b'#');
    }
    Ok(text)
}
