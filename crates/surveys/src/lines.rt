//! Writes the result of a campaign in a survey as a line with a JSON object.
ghost use Rattle.std.specs.Prelude.{◌≡◌, ◌++◌, IfOk, OnOk, string_bytes};
ghost use Rattle.surveys.specs.Lines.{answer_text, back_text, flag_text, front_text, line_text};

use crate::finding::Finding;
use crate::number_text::put_numbered;
use std::alloc::{AllocError, Global};

/// Returns the JSON word for a flag, `true` or `false`.
fn flag_text(flag: bool) -> &'static str
    ensures { result.now ≡ flag_text flag }
{
    if flag { "true" } else { "false" }
}

/// Returns the JSON word for an answer: `true` or `false`, or `null` if there is no answer.
fn answer_text(answer: Option<bool>) -> &'static str
    ensures { result.now ≡ answer_text answer }
{
    match answer {
        None => "null",
        Some(flag) => flag_text(flag),
    }
}

/// Appends a JSON member: `name`, which contains the colon, and then `true` or `false`.
pub(crate) fn put_flag(out: &mut String, name: &str, flag: bool) -> Result<(), AllocError>
    ensures { OnOk result (string_bytes out.new ≡ string_bytes out.old ++ name.now ++ flag_text flag) }
{
    out.push_str(name)?;
    out.push_str(flag_text(flag))
}

/// Appends a JSON member: `name`, which contains the colon, and then `true` or `false`, or `null` if there is no
/// answer.
pub(crate) fn put_answer(
    out: &mut String,
    name: &str,
    answer: Option<bool>,
) -> Result<(), AllocError>
    ensures { OnOk result (string_bytes out.new ≡ string_bytes out.old ++ name.now ++ answer_text answer) }
{
    out.push_str(name)?;
    out.push_str(answer_text(answer))
}

/// Appends the first half of a campaign's line: the opening brace of the JSON object, and its members `alike`, `bound`,
/// `generals` and `kept`.
fn put_front(out: &mut String, finding: &Finding) -> Result<(), AllocError>
    ensures { OnOk result (string_bytes out.new ≡ string_bytes out.old ++ front_text finding.now) }
{
    put_flag(out, "{\"alike\":", finding.verdict.alike)?;
    put_numbered(out, ",\"bound\":", u64::from(finding.bound))?;
    put_numbered(out, ",\"generals\":", u64::from(finding.generals))?;
    put_flag(out, ",\"kept\":", finding.verdict.bound)?;
    Ok(())
}

/// Appends the second half of a campaign's line: the members `line`, `obeyed`, `seed` and `traitors`, the closing brace
/// of the JSON object, and a line feed.
fn put_back(out: &mut String, finding: &Finding) -> Result<(), AllocError>
    ensures { OnOk result (string_bytes out.new ≡ string_bytes out.old ++ back_text finding.now) }
{
    put_answer(
        out,
        ",\"line\":\"campaign\",\"obeyed\":",
        finding.verdict.obeyed,
    )?;
    put_numbered(out, ",\"seed\":", finding.seed)?;
    put_numbered(out, ",\"traitors\":", finding.traitors)?;
    out.push_str("}\n")?;
    Ok(())
}

/// Appends the result of a campaign as a line: a JSON object and a line feed.
///
/// # Errors
///
/// Fails with `AllocError` if it runs out of memory.
pub fn put_line(out: &mut String, finding: &Finding) -> Result<(), AllocError>
    ensures { OnOk result (string_bytes out.new ≡ string_bytes out.old ++ line_text finding.now) }
{
    put_front(out, finding)?;
    put_back(out, finding)?;
    Ok(())
}

/// Returns the result of a campaign as a line: a JSON object and a line feed.
///
/// # Errors
///
/// Fails with `AllocError` if it runs out of memory.
pub fn line(alloc: Global, finding: &Finding) -> Result<String, AllocError>
    ensures { IfOk result (λ text. string_bytes text ≡ line_text finding.now) }
{
    let mut out = String::new(alloc);
    put_line(&mut out, finding)?;
    Ok(out)
}
