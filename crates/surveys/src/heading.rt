//! Writes the head of a survey, which describes the family of its campaigns as a JSON object.
ghost use Rattle.std.specs.Prelude.{◌≡◌, ◌++◌, IfOk, OnOk, codes, string_bytes};
ghost use Rattle.surveys.specs.Heads.{adversary_word, commander_text, head_end, head_front, head_middle, head_text, is_head, line_word, manner_word, orders_text, patience_word};

use crate::adversary::Adversary;
use crate::family::Family;
use crate::manner::Manner;
use crate::number_text::put_numbered;
use crate::span::CountRange;
use std::alloc::{AllocError, Global};

/// Returns what the traitors do as a JSON string, such as `"lies"`. For a given program it is `0x` with the bytecode in
/// hex.
fn adversary_word(alloc: Global, adversary: &Adversary) -> Result<String, AllocError>
    ensures { IfOk result (λ word. string_bytes word ≡ adversary_word adversary.now) }
{
    match adversary {
        Adversary::Lies => String::from_str(alloc, "\"lies\""),
        Adversary::Silent => String::from_str(alloc, "\"silent\""),
        Adversary::Collude => String::from_str(alloc, "\"collude\""),
        Adversary::Given(hex) => format!(in alloc; "\"0x{hex}\""),
    }
}

/// Returns how orders are sent as a JSON string: the name of the rule that combines oral messages, or `"signed"`.
fn manner_word(alloc: Global, manner: Manner) -> Result<String, AllocError>
    ensures { IfOk result (λ word. string_bytes word ≡ manner_word manner) }
{
    match manner {
        Manner::Oral(rule) => quoted(alloc, rule.name()),
        Manner::Signed => String::from_str(alloc, "\"signed\""),
    }
}

/// Returns a word between quotation marks.
fn quoted(alloc: Global, word: &str) -> Result<String, AllocError>
    ensures { IfOk result (λ text. string_bytes text ≡ codes "\"" ++ (word.now ++ codes "\"")) }
{
    format!(in alloc; "\"{word}\"")
}

/// Returns how many steps a traitor may take in a round as a JSON number, or `null` if they are not limited.
fn patience_word(alloc: Global, patience: Option<u32>) -> Result<String, AllocError>
    ensures { IfOk result (λ word. string_bytes word ≡ patience_word patience) }
{
    match patience {
        None => String::from_str(alloc, "null"),
        Some(steps) => format!(in alloc; "{steps}"),
    }
}

/// Appends a JSON member: `name`, which contains the colon, and then `word`.
fn put_word(out: &mut String, name: &str, word: &str) -> Result<(), AllocError>
    ensures { OnOk result (string_bytes out.new ≡ string_bytes out.old ++ name.now ++ word.now) }
{
    out.push_str(name)?;
    out.push_str(word)
}

/// Appends the JSON member `commander`, unless general 0 commands.
fn put_commander(out: &mut String, commander: u8) -> Result<(), AllocError>
    ensures { OnOk result (string_bytes out.new ≡ string_bytes out.old ++ commander_text commander) }
{
    if commander == 0 {
        return Ok(());
    }
    put_numbered(out, ",\"commander\":", u64::from(commander))
}

/// Appends the JSON members `bound_high`, `bound_low`, `commander` (unless it is 0), `generals_high` and
/// `generals_low`.
fn put_front(
    out: &mut String,
    bound: CountRange,
    commander: u8,
    generals: CountRange,
) -> Result<(), AllocError>
    ensures { OnOk result (string_bytes out.new ≡ string_bytes out.old ++ head_front bound commander generals) }
{
    put_numbered(out, ",\"bound_high\":", u64::from(bound.high))?;
    put_numbered(out, ",\"bound_low\":", u64::from(bound.low))?;
    put_commander(out, commander)?;
    put_numbered(out, ",\"generals_high\":", u64::from(generals.high))?;
    put_numbered(out, ",\"generals_low\":", u64::from(generals.low))?;
    Ok(())
}

/// Appends the JSON member `orders` with the greatest order, unless this is 1.
fn put_orders(out: &mut String, orders: u8) -> Result<(), AllocError>
    ensures { OnOk result (string_bytes out.new ≡ string_bytes out.old ++ orders_text orders) }
{
    if orders == 1 {
        return Ok(());
    }
    put_numbered(out, ",\"orders\":", u64::from(orders))
}

/// Returns the value of the JSON member `line`: `"grid"` if the seeds go through all combinations of the ranges, and
/// `"family"` if each seed draws at random.
fn line_word(grid: bool) -> &'static str
    ensures { result.now ≡ line_word grid }
{
    if grid { "\"grid\"" } else { "\"family\"" }
}

/// Appends the JSON members `line`, `manner`, `orders` (unless it is 1) and `patience`.
fn put_middle(
    out: &mut String,
    grid: bool,
    manner: &str,
    orders: u8,
    patience: &str,
) -> Result<(), AllocError>
    ensures { OnOk result (string_bytes out.new ≡ string_bytes out.old ++ head_middle grid manner.now orders patience.now) }
{
    put_word(out, ",\"line\":", line_word(grid))?;
    put_word(out, ",\"manner\":", manner)?;
    put_orders(out, orders)?;
    put_word(out, ",\"patience\":", patience)?;
    Ok(())
}

/// Appends the JSON members `traitors_high` and `traitors_low`, the closing brace, and a line feed.
fn put_end(out: &mut String, traitors: CountRange) -> Result<(), AllocError>
    ensures { OnOk result (string_bytes out.new ≡ string_bytes out.old ++ head_end traitors) }
{
    put_numbered(out, ",\"traitors_high\":", u64::from(traitors.high))?;
    put_numbered(out, ",\"traitors_low\":", u64::from(traitors.low))?;
    out.push_str("}\n")?;
    Ok(())
}

/// Returns the head of a survey, its first line: a JSON object that describes the family, and a line feed.
///
/// # Errors
///
/// Fails with `AllocError` if it runs out of memory.
pub fn head(alloc: Global, family: &Family) -> Result<String, AllocError>
    ensures { IfOk result (λ text. string_bytes text ≡ head_text family.now) }
{
    let adversary = adversary_word(alloc, family.adversary())?;
    let manner = manner_word(alloc, family.manner())?;
    let patience = patience_word(alloc, family.patience())?;
    let mut out = String::new(alloc);
    put_word(&mut out, "{\"adversary\":", adversary.as_str())?;
    put_front(
        &mut out,
        family.bound(),
        family.commander(),
        family.generals(),
    )?;
    put_middle(
        &mut out,
        family.grid(),
        manner.as_str(),
        family.orders(),
        patience.as_str(),
    )?;
    put_end(&mut out, family.traitors())?;
    Ok(out)
}

/// Checks whether a line begins with `{"adversary":`, as the head of a survey does.
pub(crate) fn is_head(line: &[u8]) -> bool
    ensures { result ≡ is_head line.now }
{
    let front = &line[..line.len().min(13)];
    front == b"{\"adversary\":".as_slice()
}
