//! Reports faults of a setting's keys and values, and unknown keys.
ghost use Rattle.std.specs.Prelude.{◌≡◌, IfOk, option_map, string_bytes};
ghost use Rattle.cli_report.specs.Nearest.{near};
ghost use Rattle.cli_report.specs.Report.{mark_view};
ghost use Rattle.cli_report.specs.Settings.{order_sentence, setting_keys, setting_kind_sentence, setting_mark, setting_name_sentence, setting_place_told, setting_range_sentence, setting_sentence, setting_unknown_told, setting_word, setting_word_sentence};

use crate::keys::find_line;
use crate::nearest_name::near;
use crate::report::{Mark, report};
use crate::scenarios::{key_report, value_mark};
use std::alloc::{AllocError, Global};
use trial::{SettingFault, SettingKey, SettingPlace};

/// The keys of a setting.
static KEYS: [&'static str; 7] = [
    "generals",
    "bound",
    "commander",
    "general",
    "round",
    "taken",
    "board",
];

/// Returns the error sentence for a setting's key with a value of the wrong type.
fn kind_sentence(name: SettingKey) -> &'static str
    ensures { result.now ≡ setting_kind_sentence name }
{
    match name {
        SettingKey::Taken => "the orders taken must be a list of whole numbers",
        SettingKey::Board => "the board must be a list of whole numbers",
        _ => "a whole number is expected here",
    }
}

/// Returns the error sentence for a setting's key with a value out of its range.
fn range_sentence(name: SettingKey) -> &'static str
    ensures { result.now ≡ setting_range_sentence name }
{
    match name {
        SettingKey::Generals => "there must be 2 to 13 generals",
        SettingKey::Bound => "a bound must be 0 to 4, and at most generals - 2",
        SettingKey::Round => "a round must be 1 to bound + 1",
        SettingKey::Taken => "there are more orders than labels that he relays in this round",
        SettingKey::Board => "a board must have at most 64 words",
        _ => "this value is out of range",
    }
}

/// Returns the error sentence for a fault of a setting's key or its value.
fn name_sentence(alloc: Global, fault: SettingFault, name: SettingKey) -> Result<String, AllocError>
    ensures { IfOk result (λ text. string_bytes text ≡ setting_name_sentence fault name) }
{
    let sentence = match fault {
        SettingFault::Key => return format!(in alloc; "the key `{}` is missing", name.text()),
        SettingFault::Kind => kind_sentence(name),
        SettingFault::Range => range_sentence(name),
        SettingFault::General => "no general has this number: it must be 0 to generals - 1",
    };
    String::from_str(alloc, sentence)
}

/// Returns the error sentence for a fault of an order in the list `taken`.
fn order_sentence(fault: SettingFault) -> &'static str
    ensures { result.now ≡ order_sentence fault }
{
    match fault {
        SettingFault::Kind => "an order that was taken must be a whole number",
        _ => "an order must be 0 to 4294967295",
    }
}

/// Returns the error sentence for a fault of a word in the list `board`.
fn word_sentence(fault: SettingFault) -> &'static str
    ensures { result.now ≡ setting_word_sentence fault }
{
    match fault {
        SettingFault::Kind => "a word of the board must be a whole number",
        _ => "a word of the board must be 0 to 2^63 - 1",
    }
}

/// Returns the error sentence for a fault at a place in a setting.
fn sentence(alloc: Global, fault: SettingFault, place: SettingPlace) -> Result<String, AllocError>
    ensures { IfOk result (λ text. string_bytes text ≡ setting_sentence fault place) }
{
    match place {
        SettingPlace::Key(name) => name_sentence(alloc, fault, name),
        SettingPlace::Order(_) => String::from_str(alloc, order_sentence(fault)),
        SettingPlace::Word(_) => String::from_str(alloc, word_sentence(fault)),
    }
}

/// Returns the key that is at fault, or whose value is: `taken` for an order, and `board` for a word.
fn word(place: SettingPlace) -> &'static str
    ensures { result.now ≡ setting_word place }
{
    match place {
        SettingPlace::Key(name) => name.text(),
        SettingPlace::Order(_) => "taken",
        SettingPlace::Word(_) => "board",
    }
}

/// Marks the value at this place in a setting. Returns `None` if its line is not found.
fn mark(place: SettingPlace, text: &[u8]) -> Option<Mark<'_>>
    ensures { option_map mark_view result ≡ setting_mark place text.now }
{
    let word = word(place).as_bytes();
    value_mark(word, find_line(0, word, text))
}

/// Returns the report of a fault at a place in a setting. `name` is the file's name.
#[tactic(auto, unfolding(crate::specs::Settings::setting_place_told))]
pub(crate) fn place_told(
    alloc: Global,
    name: &str,
    text: &[u8],
    fault: SettingFault,
    place: SettingPlace,
) -> Result<String, AllocError>
    ensures { IfOk result (λ told. string_bytes told ≡ setting_place_told name.now text.now fault place) }
{
    let sentence = sentence(alloc, fault, place)?;
    let mark = mark(place, text);
    report(alloc, name, sentence.as_str(), mark, None)
}

/// Returns the key of a setting that is similar to `word`, or `None` if there is no such key.
fn near_key(alloc: Global, word: &[u8]) -> Result<Option<&'static str>, AllocError>
    ensures { IfOk result (λ key. option_map (λ k. k.now) key ≡ near word.now setting_keys) }
{
    near(alloc, word, &KEYS)
}

/// Returns the report of the unknown key `word` in a setting. `name` is the file's name.
pub(crate) fn unknown_told(
    alloc: Global,
    name: &str,
    text: &[u8],
    word: &[u8],
) -> Result<String, AllocError>
    ensures { IfOk result (λ told. string_bytes told ≡ setting_unknown_told name.now text.now word.now) }
{
    let known = near_key(alloc, word)?;
    let line = find_line(0, word, text);
    key_report(alloc, name, "a setting has no such key", word, line, known)
}
