//! Finds the known name that is closest to a misspelled word.
ghost use Rattle.std.specs.Prelude.{◌≡◌, map, option_map, IfOk};
ghost use Rattle.cli_report.specs.Nearest.{distance, near};

use std::alloc::{AllocError, Global};
use strsim::generic_levenshtein;

/// Returns the Levenshtein distance between a word and a name: how many bytes must at least be inserted, deleted or
/// replaced to change one into the other.
fn distance(alloc: Global, word: &[u8], name: &str) -> Result<usize, AllocError>
    ensures { IfOk result (λ edits. edits ≡ distance word.now name.now) }
{
    generic_levenshtein(alloc, word, name.as_bytes())
}

/// Returns the name with the least distance from the word, the first one if there are several. Returns `None` if this
/// distance is more than half the word's size in bytes, or if the word is empty.
#[tactic(auto, unfolding(crate::specs::Nearest::near))]
pub(crate) fn near(
    alloc: Global,
    word: &[u8],
    names: &[&'static str],
) -> Result<Option<&'static str>, AllocError>
    ensures { IfOk result (λ found. option_map (λ name. name.now) found
        ≡ near word.now (map (λ name. name.now) names.now)) }
{
    let mut best = "";
    let mut least = distance(alloc, word, best)?;
    for name in names {
        let edits = distance(alloc, word, name)?;
        if edits < least {
            best = *name;
            least = edits;
        }
    }
    if !word.is_empty() && least <= word.len() / 2 {
        Ok(Some(best))
    } else {
        Ok(None)
    }
}
