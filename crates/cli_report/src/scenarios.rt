//! Reports faults of a scenario's keys and values, and unknown keys.
ghost use Rattle.std.specs.Prelude.{◌≡◌, false, true, IfOk, codes, option_map, string_bytes};
ghost use Rattle.cli_report.specs.Keys.{found_view, shown_at};
ghost use Rattle.cli_report.specs.Nearest.{near};
ghost use Rattle.cli_report.specs.Report.{help_words, mark_view, near_words};
ghost use Rattle.cli_report.specs.Scenarios.{entry_key_told, entry_keys, entry_sentence, is_itself, is_of_value, key_told, kind_sentence, missing_sentence, name_sentence, other_than, place_mark, place_sentence, place_told, range_sentence, top_key_told, top_keys, unknown_told, word_sentence};

use crate::keys::{Found, entry_line, find_line, header, shown_at};
use crate::nearest_name::near;
use crate::report::{Help, Mark, report};
use crate::strategies::{strategy_help, strategy_sentence};
use combine::Rule;
use scenario::{ScenarioFault, ScenarioKey, ScenarioPlace};
use std::alloc::{AllocError, Global};

/// The keys at the top of a scenario.
static TOP_KEYS: [&'static str; 9] = [
    "generals",
    "bound",
    "commander",
    "order",
    "board",
    "patience",
    "rule",
    "messages",
    "traitor",
];

/// The keys of a traitor's table.
static ENTRY_KEYS: [&'static str; 9] = [
    "general",
    "generals",
    "asm",
    "asm_file",
    "code",
    "code_file",
    "elf",
    "entry",
    "strategy",
];

/// Returns the error sentence for a key that is missing, or that must not be there.
fn missing_sentence(alloc: Global, name: ScenarioKey) -> Result<String, AllocError>
    ensures { IfOk result (λ text. string_bytes text ≡ missing_sentence name) }
{
    match name {
        ScenarioKey::Rule => String::from_str(
            alloc,
            "a signed campaign combines no orders, so it has no rule",
        ),
        ScenarioKey::Asm => String::from_str(
            alloc,
            "a traitor's table must have exactly one of `asm`, `code`, `asm_file`, `code_file`, `elf` and `strategy`",
        ),
        name => format!(in alloc; "the key `{}` is missing", name.text()),
    }
}

/// Returns the error sentence for a key with a value of the wrong type.
fn kind_sentence(alloc: Global, name: ScenarioKey) -> Result<String, AllocError>
    ensures { IfOk result (λ text. string_bytes text ≡ kind_sentence name) }
{
    let sentence = match name {
        ScenarioKey::Rule => {
            let names = Rule::names();
            return format!(in alloc; "a rule must be a text in quotation marks: {names}");
        }
        ScenarioKey::Board => "a board must be a list of whole numbers",
        ScenarioKey::Messages => "messages must be a text, \"oral\" or \"signed\"",
        ScenarioKey::Traitor =>
            "the traitors must be a list of tables, each of which begins with `[[traitor]]`",
        ScenarioKey::Asm =>
            "a program must be a text in quotation marks, such as `asm = \"mov r0, 0\\nexit\"`",
        ScenarioKey::Code => "bytecode must be a text of hex digits in quotation marks",
        ScenarioKey::Strategy => return strategy_sentence(alloc),
        _ => "a whole number is expected here",
    };
    String::from_str(alloc, sentence)
}

/// Returns the error sentence for a key with a value out of its range.
fn range_sentence(alloc: Global, name: ScenarioKey) -> Result<String, AllocError>
    ensures { IfOk result (λ text. string_bytes text ≡ range_sentence name) }
{
    let sentence = match name {
        ScenarioKey::Rule => {
            let names = Rule::names();
            return format!(in alloc;
                "a rule must be one of these texts, in quotation marks: {names}"
            );
        }
        ScenarioKey::Generals => "there must be 2 to 13 generals",
        ScenarioKey::Bound => "a bound must be 0 to 4, and at most generals - 2",
        ScenarioKey::Commander => "generals are numbered from 0",
        ScenarioKey::Order => "an order must be 0 to 4294967295",
        ScenarioKey::Board => "a board must have at most 64 words",
        ScenarioKey::Patience => "a patience must be 1 to 4096 steps",
        ScenarioKey::Messages =>
            "messages must be \"oral\" or \"signed\", and \"oral\" for `play --table`",
        ScenarioKey::Strategy => return strategy_sentence(alloc),
        _ => "this value is out of range",
    };
    String::from_str(alloc, sentence)
}

/// Returns the error sentence for a fault of a scenario's key or its value.
fn name_sentence(
    alloc: Global,
    fault: ScenarioFault,
    name: ScenarioKey,
) -> Result<String, AllocError>
    ensures { IfOk result (λ text. string_bytes text ≡ name_sentence fault name) }
{
    let sentence = match fault {
        ScenarioFault::Key => return missing_sentence(alloc, name),
        ScenarioFault::Kind => return kind_sentence(alloc, name),
        ScenarioFault::Range => return range_sentence(alloc, name),
        ScenarioFault::General => "no general has this number: it must be 0 to generals - 1",
        ScenarioFault::Twice => "an earlier table is for this general",
    };
    String::from_str(alloc, sentence)
}

/// Returns the error sentence for a fault of a word in the list `board`.
fn word_sentence(fault: ScenarioFault) -> &'static str
    ensures { result.now ≡ word_sentence fault }
{
    match fault {
        ScenarioFault::Kind => "a word of the board must be a whole number",
        _ => "a word of the board must be 0 to 9223372036854775807",
    }
}

/// Returns the error sentence for a fault at a place in a scenario.
pub(crate) fn place_sentence(
    alloc: Global,
    fault: ScenarioFault,
    place: ScenarioPlace,
) -> Result<String, AllocError>
    ensures { IfOk result (λ text. string_bytes text ≡ place_sentence fault place) }
{
    match place {
        ScenarioPlace::Key(name) | ScenarioPlace::Entry(_, name) => name_sentence(
            alloc, fault, name,
        ),
        ScenarioPlace::Word(_) => String::from_str(alloc, word_sentence(fault)),
        ScenarioPlace::Table(_) => String::from_str(
            alloc,
            "a traitor must be a table that begins with `[[traitor]]`",
        ),
    }
}

/// Checks whether a fault is in the value of a key. The fault `Key`, that a key is missing or must not be there, is
/// not.
pub(crate) fn is_of_value(fault: ScenarioFault) -> bool
    ensures { result ≡ is_of_value fault }
{
    match fault {
        ScenarioFault::Key => false,
        _ => true,
    }
}

/// Marks the place of a fault in the text of a scenario. Returns `None` if its line is not found.
pub(crate) fn place_mark(
    fault: ScenarioFault,
    place: ScenarioPlace,
    text: &[u8],
) -> Option<Mark<'_>>
    ensures { option_map mark_view result ≡ place_mark fault place text.now }
{
    match place {
        ScenarioPlace::Key(name) => {
            let word = name.text().as_bytes();
            Some(shown_at(is_of_value(fault), word, find_line(0, word, text)?))
        }
        ScenarioPlace::Word(_) => Some(shown_at(true, b"board", find_line(0, b"board", text)?)),
        ScenarioPlace::Table(index) => {
            Some(shown_at(false, header(), entry_line(index, header(), text)?))
        }
        ScenarioPlace::Entry(index, name) => {
            let word = name.text().as_bytes();
            Some(shown_at(is_of_value(fault), word, entry_line(index, word, text)?))
        }
    }
}

/// Returns the report of a fault at a place in a scenario. `name` is the file's name.
#[tactic(auto, unfolding(crate::specs::Scenarios::place_told))]
pub(crate) fn place_told(
    alloc: Global,
    name: &str,
    text: &[u8],
    fault: ScenarioFault,
    place: ScenarioPlace,
) -> Result<String, AllocError>
    ensures { IfOk result (λ told. string_bytes told ≡ place_told name.now text.now fault place) }
{
    let sentence = place_sentence(alloc, fault, place)?;
    let mark = place_mark(fault, place, text);
    let help = strategy_help(alloc, fault, place, text)?;
    report(alloc, name, sentence.as_str(), mark, help)
}

/// Returns the key at the top of a scenario that is similar to `word`, or `None` if there is no such key.
fn near_top_key(alloc: Global, word: &[u8]) -> Result<Option<&'static str>, AllocError>
    ensures { IfOk result (λ key. option_map (λ k. k.now) key ≡ near word.now top_keys) }
{
    near(alloc, word, &TOP_KEYS)
}

/// Returns the key of a traitor's table that is similar to `word`, or `None` if there is no such key.
fn near_entry_key(alloc: Global, word: &[u8]) -> Result<Option<&'static str>, AllocError>
    ensures { IfOk result (λ key. option_map (λ k. k.now) key ≡ near word.now entry_keys) }
{
    near(alloc, word, &ENTRY_KEYS)
}

/// Returns the report of the unknown key `word`. `line` is the line with the key, and `known` is a similar key, if
/// there is one.
pub(crate) fn key_report(
    alloc: Global,
    name: &str,
    sentence: &str,
    word: &[u8],
    line: Option<Found<'_>>,
    known: Option<&'static str>,
) -> Result<String, AllocError>
    ensures { IfOk result (λ told. string_bytes told
        ≡ key_told name.now sentence.now word.now (option_map found_view line.entry)
        (option_map (λ k. k.now) known.entry)) }
{
    report(alloc, name, sentence, key_mark(word, line), key_help(known))
}

/// Returns the report of the unknown key `word` at the top of a scenario.
fn unknown_at_top(alloc: Global, name: &str, text: &[u8], word: &[u8]) -> Result<String, AllocError>
    ensures { IfOk result (λ told. string_bytes told ≡ top_key_told name.now text.now word.now) }
{
    let known = near_top_key(alloc, word)?;
    let line = find_line(0, word, text);
    key_report(alloc, name, "a scenario has no such key", word, line, known)
}

/// Returns the report of the unknown key `word` in the traitor's table `index`, counted from 0.
fn unknown_in_table(
    alloc: Global,
    name: &str,
    text: &[u8],
    index: usize,
    word: &[u8],
) -> Result<String, AllocError>
    ensures { IfOk result (λ told. string_bytes told ≡ entry_key_told name.now text.now index word.now) }
{
    let known = near_entry_key(alloc, word)?;
    let line = entry_line(index, word, text);
    let sentence = entry_sentence(known, word);
    let other = other_than(known, word);
    key_report(alloc, name, sentence, word, line, other)
}

/// Checks whether `known`, the key that is most similar to `word`, is `word` itself.
fn is_itself(known: Option<&'static str>, word: &[u8]) -> bool
    ensures { result ≡ is_itself (option_map (λ k. k.now) known.entry) word.now }
{
    match known {
        Some(key) => key.as_bytes() == word,
        None => false,
    }
}

/// Returns the error sentence for the key `word` of a traitor's table. `known` is the similar key, if there is one. If
/// it is `word` itself, the sentence is that the key does not fit the table's other keys, and otherwise that there is
/// no such key.
fn entry_sentence(known: Option<&'static str>, word: &[u8]) -> &'static str
    ensures { result.now ≡ entry_sentence (option_map (λ k. k.now) known.entry) word.now }
{
    if is_itself(known, word) {
        "this key does not fit the table's other keys: a table has one program, and `general` or `generals`; \
         `generals` is a list, a file's name is a text, `entry` needs `elf`, and --no-files permits no file"
    } else {
        "a traitor's table has no such key"
    }
}

/// Returns `known`, the key that is most similar to `word` if there is one. Returns `None` if it is `word` itself.
fn other_than(known: Option<&'static str>, word: &[u8]) -> Option<&'static str>
    ensures { option_map (λ k. k.now) result ≡ other_than (option_map (λ k. k.now) known.entry) word.now }
{
    if is_itself(known, word) { None } else { known }
}

/// Returns the report of an unknown key, at the top of a scenario or in the traitor's table `index`, counted from 0.
pub(crate) fn unknown_told(
    alloc: Global,
    name: &str,
    text: &[u8],
    index: Option<usize>,
    key: &str,
) -> Result<String, AllocError>
    ensures { IfOk result (λ told. string_bytes told ≡ unknown_told name.now text.now index key.now) }
{
    match index {
        None => unknown_at_top(alloc, name, text, key.as_bytes()),
        Some(index) => unknown_in_table(alloc, name, text, index, key.as_bytes()),
    }
}

/// Marks the key `word` in its line. Returns `None` if `line` is `None`.
pub(crate) fn key_mark<'a>(word: &[u8], line: Option<Found<'a>>) -> Option<Mark<'a>>
    ensures { option_map mark_view result ≡ option_map (shown_at false word.now) (option_map found_view line.entry) }
{
    match line {
        Some(line) => Some(shown_at(false, word, line)),
        None => None,
    }
}

/// Marks the value of the key `word` in its line. Returns `None` if `line` is `None`.
pub(crate) fn value_mark<'a>(word: &[u8], line: Option<Found<'a>>) -> Option<Mark<'a>>
    ensures { option_map mark_view result ≡ option_map (shown_at true word.now) (option_map found_view line.entry) }
{
    match line {
        Some(line) => Some(shown_at(true, word, line)),
        None => None,
    }
}

/// Returns the help message that names `known`, a similar key, or `None` if there is no such key.
pub(crate) fn key_help(known: Option<&'static str>) -> Option<Help<'static>>
    ensures { option_map help_words result
        ≡ option_map (near_words (codes "key")) (option_map (λ key. key.now) known.entry) }
{
    match known {
        Some(key) => Some(Help::Near("key", key)),
        None => None,
    }
}
