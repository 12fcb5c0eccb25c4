//! Finds lines in an answer: all of them, those that match a pattern, the last one, and the accesses of a round in a
//! chronicle.
use crate::likeness::is_like;
use std::alloc::{AllocError, Global};

/// Splits a text into its lines, without their line feeds.
pub fn lines(alloc: Global, text: &[u8]) -> Result<Vec<&[u8]>, AllocError> {
    let mut lines: Vec<&[u8]> = text.split(|byte| *byte == b'\n').collect(alloc)?;
    let is_ended = match lines.last() {
        Some(behind) => behind.is_empty(),
        None => false,
    };
    if is_ended {
        let _ = lines.pop();
    }
    Ok(lines)
}

/// Counts the lines of a text that match the pattern, in which `*` matches any text and `#` a decimal number.
pub fn number_like(alloc: Global, text: &[u8], pattern: &[u8]) -> Result<usize, AllocError> {
    let mut number = 0usize;
    for line in &lines(alloc, text)? {
        if is_like(alloc, pattern, *line)? {
            number = number.saturating_add(1);
        }
    }
    Ok(number)
}

/// Returns the last line of a text without its line feed. Returns an empty line if the text has no lines.
pub fn last(alloc: Global, text: &[u8]) -> Result<Vec<u8>, AllocError> {
    match lines(alloc, text)?.last() {
        Some(line) => line.to_vec(alloc),
        None => Ok(Vec::new(alloc)),
    }
}

/// Returns the lines of accesses in one round of a chronicle, each with a line feed. Rounds are counted from 1.
pub fn accesses(alloc: Global, text: &[u8], round: usize) -> Result<Vec<u8>, AllocError> {
    let mut accesses = Vec::new(alloc);
    let mut begun = 0usize;
    for line in &lines(alloc, text)? {
        if line.starts_with(b"round ") {
            begun = begun.saturating_add(1);
        }
        if begun == round && line.starts_with(b"access ") {
            accesses.extend_from_slice(*line)?;
            accesses.push(b'\n')?;
        }
    }
    Ok(accesses)
}
