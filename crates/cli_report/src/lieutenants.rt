//! Reports that a general who is named on the command line does not exist, or is not a lieutenant.
ghost use Rattle.std.specs.Prelude.{◌≡◌, IfOk, option_map, string_bytes};
ghost use Rattle.cli_report.specs.Lieutenants.{lieutenant_sentence, lieutenant_told, lieutenant_word, stranger_told};

use crate::keys::find_line;
use crate::lines::line_at;
use crate::messages::stranger_line_told;
use crate::report::report;
use crate::scenarios::value_mark;
use std::alloc::{AllocError, Global};

/// Returns the error sentence for a general who makes no decision: in a campaign of `generals` generals he is the
/// commander, or does not exist.
fn sentence(alloc: Global, general: u8, generals: u8) -> Result<String, AllocError>
    ensures { IfOk result (λ text. string_bytes text ≡ lieutenant_sentence general generals) }
{
    if general < generals {
        return format!(in alloc; "general {general} is the commander, and only lieutenants decide");
    }
    let last = generals.saturating_sub(1);
    format!(in alloc; "the campaign has the generals 0 to {last}")
}

/// Returns the key of the scenario that shows why this general is no lieutenant: `commander` if he exists, and
/// otherwise `generals`.
fn word(general: u8, generals: u8) -> &'static str
    ensures { result.now ≡ lieutenant_word general generals }
{
    if general < generals {
        "commander"
    } else {
        "generals"
    }
}

/// Returns the report that a general is not a lieutenant of a scenario's campaign, which has `generals` generals.
/// `name` is the scenario's file name, and `text` is its text.
#[tactic(auto, unfolding(crate::specs::Lieutenants::lieutenant_told))]
fn lieutenant_told(
    alloc: Global,
    name: &str,
    text: &[u8],
    general: u8,
    generals: u8,
) -> Result<String, AllocError>
    ensures { IfOk result (λ told. string_bytes told ≡ lieutenant_told name.now text.now general generals) }
{
    let sentence = sentence(alloc, general, generals)?;
    let word = word(general, generals).as_bytes();
    let mark = value_mark(word, find_line(0, word, text));
    report(alloc, name, sentence.as_str(), mark, None)
}

/// Returns the report that a general named on the command line does not belong to a file. For a message table, it is
/// that he is not in the table, and for a scenario, that he is not a lieutenant. There are `generals` generals, and
/// `name` is the file's name.
#[tactic(auto, unfolding(crate::specs::Lieutenants::stranger_told))]
pub fn of_stranger(
    alloc: Global,
    name: &str,
    text: &[u8],
    general: u8,
    generals: u8,
) -> Result<String, AllocError>
    ensures { IfOk result (λ told. string_bytes told ≡ stranger_told name.now text.now general generals) }
{
    match find_line(0, b"commander", text) {
        Some(_) => lieutenant_told(alloc, name, text, general, generals),
        None => stranger_line_told(alloc, name, generals, line_at(text, 1)),
    }
}
