//! Writes a message table as text, line by line.
ghost use Rattle.std.specs.Prelude.{◌≡◌, ◌≤◌, ◌+◌, ◌++◌, ◌∷◌, [], length, IfOk, OnOk, string_bytes};
ghost use Rattle.book.specs.Explained.{dotted};
ghost use Rattle.book.specs.Table.{AreNumbersWithin};
ghost use Rattle.book.specs.Written.{first_line, line_of, lines_from, rule_words, written};

use crate::mark::{Marks, TableMark};
use combine::Rule;
use label::Label;
use std::alloc::{AllocError, Global};

/// Returns the message table, as text, of a campaign with these numbers and this rule. It has a first line, and then a
/// line for each label and receiver for which `marks` has an order or a question mark, the shorter labels first.
///
/// # Errors
///
/// `AllocError` if out of memory.
pub(crate) fn write<M: Marks>(
    alloc: Global,
    marks: &M,
    generals: u8,
    bound: u8,
    commander: u8,
    rule: Rule,
) -> Result<String, AllocError>
    requires { AreNumbersWithin generals bound commander }
    ensures { IfOk result (λ text. string_bytes text ≡ written (M.marking marks.now) generals bound commander rule) }
{
    let mut text = first_line(alloc, generals, bound, commander, rule)?;
    let label = Label::of(commander);
    let name = alone(alloc, commander)?;
    for more in 0..bound + 1 {
        push_labels(
            alloc,
            &mut text,
            marks,
            generals,
            &label,
            name.as_str(),
            more,
        )?;
    }
    Ok(text)
}

/// Returns the text of the label that consists of one general, such as `0`.
fn alone(alloc: Global, general: u8) -> Result<String, AllocError>
    ensures { IfOk result (λ name. string_bytes name ≡ dotted (general ∷ [])) }
{
    format!(in alloc; "{general}")
}

/// Returns the text of `label` extended by `general`, such as `0.2.3`. `name` is the text of `label`.
fn prolonged(alloc: Global, label: &Label, name: &str, general: u8) -> Result<String, AllocError>
    requires { name.now ≡ dotted label.now }
    ensures { IfOk result (λ name. string_bytes name ≡ dotted (label.now ++ general ∷ [])) }
{
    let _generals = label.len();
    format!(in alloc; "{name}.{general}")
}

/// Returns the first line, such as `generals 4 bound 1 commander 0`. The rule is written only if it is not the default
/// one.
fn first_line(
    alloc: Global,
    generals: u8,
    bound: u8,
    commander: u8,
    rule: Rule,
) -> Result<String, AllocError>
    ensures { IfOk result (λ text. string_bytes text ≡ first_line generals bound commander rule) }
{
    let words = rule_words(alloc, rule)?;
    let rule = words.as_str();
    format!(in alloc; "generals {generals} bound {bound} commander {commander}{rule}\n")
}

/// Returns the words of the rule at the end of the first line, such as ` rule NAME`, or an empty text for the default
/// rule.
fn rule_words(alloc: Global, rule: Rule) -> Result<String, AllocError>
    ensures { IfOk result (λ words. string_bytes words ≡ rule_words rule) }
{
    if rule.is_default() {
        return Ok(String::new(alloc));
    }
    let name = rule.name();
    format!(in alloc; " rule {name}")
}

/// Appends a line for each receiver of each label that begins with `label` and has `more` further generals. `name` is
/// the text of `label`.
fn push_labels<M: Marks>(
    alloc: Global,
    text: &mut String,
    marks: &M,
    generals: u8,
    label: &Label,
    name: &str,
    more: u8,
) -> Result<(), AllocError>
    requires few { generals ≤ 13 }
    requires room { length label.now + more ≤ 13 }
    requires name { name.now ≡ dotted label.now }
    ensures { OnOk result (string_bytes text.new ≡ string_bytes text.old
        ++ lines_from (M.marking marks.now) generals more label.now) }
{
    if more == 0 {
        return push_receivers(alloc, text, marks, generals, label, name);
    }
    for general in 0..generals {
        if !label.has(general) {
            let longer = prolonged(alloc, label, name, general)?;
            let next = label.with(general);
            push_labels(
                alloc,
                text,
                marks,
                generals,
                &next,
                longer.as_str(),
                more - 1,
            )?;
        }
    }
    Ok(())
}

/// Appends a line for each receiver of a label: each general who is not on it. `name` is the text of the label.
fn push_receivers<M: Marks>(
    alloc: Global,
    text: &mut String,
    marks: &M,
    generals: u8,
    label: &Label,
    name: &str,
) -> Result<(), AllocError>
    requires { name.now ≡ dotted label.now }
    ensures { OnOk result (string_bytes text.new ≡ string_bytes text.old
        ++ lines_from (M.marking marks.now) generals 0 label.now) }
{
    for receiver in 0..generals {
        if !label.has(receiver) {
            push_line(alloc, text, name, receiver, marks.mark(label, receiver))?;
        }
    }
    Ok(())
}

/// Appends the line of a label and a receiver, such as `tell 0.2 3 1`. Appends nothing if the receiver received no
/// order.
fn push_line(
    alloc: Global,
    text: &mut String,
    label: &str,
    receiver: u8,
    mark: TableMark,
) -> Result<(), AllocError>
    ensures { OnOk result (string_bytes text.new ≡ string_bytes text.old ++ line_of label.now receiver mark) }
{
    match mark {
        TableMark::Silence => Ok(()),
        TableMark::Open => {
            let line = format!(in alloc; "tell {label} {receiver} ?\n")?;
            text.push_str(line.as_str())
        }
        TableMark::Order(order) => {
            let line = format!(in alloc; "tell {label} {receiver} {order}\n")?;
            text.push_str(line.as_str())
        }
    }
}
