//! Turns a chronicle in JSON Lines back into its text.
use anyhow::{Result, bail};
use serde_json::{Map, Value};
use std::alloc::{AllocError, Global};

/// Turns a chronicle in JSON Lines back into its text.
///
/// # Errors
///
/// Fails if the bytes are not UTF-8, or if a line is not a JSON object for a line of a chronicle.
pub fn again(alloc: Global, lines: &[u8]) -> Result<Vec<u8>> {
    let Ok(lines) = str::from_utf8(lines) else {
        bail!("no text");
    };
    let mut out = String::new(alloc);
    for line in lines.lines() {
        let value = Value::from_str(alloc, line)?;
        let Some(object) = value.as_object() else {
            bail!("no object: {line}");
        };
        put_line(alloc, &mut out, object)?;
    }
    Ok(out.into_bytes())
}

/// Appends the line of a chronicle that a JSON object describes.
fn put_line(alloc: Global, out: &mut String, object: &Map<String, Value>) -> Result<()> {
    let mut front = "";
    for word in words(object)?.split(' ') {
        match word.strip_prefix("$") {
            Some(name) => put_member(alloc, out, object, front, name)?,
            None => {
                out.push_str(front)?;
                out.push_str(word)?;
            }
        }
        front = " ";
    }
    out.push('\n')?;
    Ok(())
}

/// Returns a template for the line of a chronicle that a JSON object describes, such as `round $round`. `$NAME` means
/// the value of the member NAME, `$NAME..` the items of a list, separated by spaces, and `$NAME.` the items separated
/// by dots.
fn words(object: &Map<String, Value>) -> Result<&'static str> {
    let Some(line) = object.get("line").and_then(Value::as_str) else {
        bail!("an object that does not say what it is");
    };
    match line {
        "version" => Ok("chronicle $version"),
        "campaign" => Ok(campaign(object)),
        "round" => Ok("round $round"),
        "access" => Ok(access(object)),
        "letter" if holds(object, "loyal") => Ok("letter $general loyal"),
        "letter" => Ok("letter $general steps $steps"),
        "row" => Ok("row $rank $orders.."),
        "chain" => Ok("chain $order $signers. to $receivers."),
        "decision" if holds(object, "traitor") => Ok("decision $general traitor $decision"),
        "decision" => Ok("decision $general $decision"),
        "verdict" => Ok("verdict alike $alike obeyed $obeyed bound $bound"),
        _ => bail!("no line of a chronicle: {line}"),
    }
}

/// Returns a template for the line that describes a campaign, as `words` does. It depends on whether the campaign is
/// signed and names its rule.
fn campaign(object: &Map<String, Value>) -> &'static str {
    if object.contains_key("messages") {
        "signed generals $generals bound $bound commander $commander order $order patience $patience"
    } else if object.contains_key("rule") {
        "generals $generals bound $bound commander $commander order $order patience $patience rule $rule"
    } else {
        "generals $generals bound $bound commander $commander order $order"
    }
}

/// Returns a template for the line of an access, as `words` does. It depends on which operands the request has.
fn access(object: &Map<String, Value>) -> &'static str {
    if object.contains_key("expected") {
        "access $general $request $slot $expected $new = $answer.."
    } else if object.contains_key("value") {
        "access $general $request $slot $value = $answer.."
    } else if object.contains_key("count") {
        "access $general $request $slot $count = $answer.."
    } else {
        "access $general $request $slot = $answer.."
    }
}

/// Checks whether the object has this member and it is true.
fn holds(object: &Map<String, Value>, name: &str) -> bool {
    object.get(name).and_then(Value::as_bool).unwrap_or(false)
}

/// Appends the value of the member `name` of an object, after `front`. For a list these are its items, separated by
/// spaces if `name` ends with `..`, and otherwise by dots.
fn put_member(
    alloc: Global,
    out: &mut String,
    object: &Map<String, Value>,
    front: &str,
    name: &str,
) -> Result<()> {
    let Some(value) = object.get(name.trim_end_matches('.')) else {
        bail!("an object without its {name}");
    };
    let Some(items) = value.as_array() else {
        out.push_str(front)?;
        put_value(alloc, out, value)?;
        return Ok(());
    };
    let between = if name.ends_with("..") { " " } else { "." };
    let mut front = front;
    if items.is_empty() && between == "." {
        out.push_str(" -")?;
    }
    for item in items {
        out.push_str(front)?;
        put_value(alloc, out, item)?;
        front = between;
    }
    Ok(())
}

/// Appends a JSON value as a word of a chronicle: `-` for null, and `yes` or `no` for a Boolean.
fn put_value(alloc: Global, out: &mut String, value: &Value) -> Result<(), AllocError> {
    match value {
        Value::Null => out.push_str("-"),
        Value::Bool(true) => out.push_str("yes"),
        Value::Bool(false) => out.push_str("no"),
        Value::String(text) => out.push_str(text.as_str()),
        other => out.push_str(other.to_string(alloc)?.as_str()),
    }
}
