//! Lays out the report after a refusal line: a sentence, an excerpt of the file with a part marked, and a help message.
ghost use Rattle.std.specs.Prelude.{◌≡◌, ◌++◌, codes, drop, length, map, option_map, string_bytes, take, IfOk, OnOk};
ghost use Rattle.std.specs.Fmt.{is_char_start};
ghost use Rattle.std.specs.List.{flat_map};
ghost use Rattle.cli_report.specs.Report.{blank_below, caret_below, carets_below, excerpt_text, help_text, help_words, margin_of, mark_view, marked_text, report_text, shown_line, shown_text, where_text};

use std::alloc::{AllocError, Global};
use std::fmt;
use streams::{Escaped, Kept};

/// A part of a line, which is marked with carets in an excerpt of a file.
#[derive(Clone, Copy)]
pub(crate) struct Mark<'a> {
    /// The number that the excerpt shows: of the line, counted from 1, or of the unit in bytecode, counted from 0.
    pub number: u64,
    /// The bytes of the line. In bytecode they are the hex digits of the unit.
    pub line: &'a [u8],
    /// How many bytes of the line are before the marked part.
    pub from: usize,
    /// How many bytes the marked part has.
    pub size: usize,
}

/// A help message: how a fault could be corrected.
#[derive(Clone, Copy)]
pub(crate) enum Help<'a> {
    /// A help message that is printed as it is.
    Said(&'a str),
    /// A kind of name, such as `mnemonic`, and a name of that kind that is similar to the one in the file.
    Near(&'a str, &'a str),
    /// The line that the campaign's own chronicle has in place of the faulty line.
    Has(&'a str),
}

impl fmt::Display for Help<'_> {
    ghost use Rattle.std.specs.Prelude.{Some};
    ghost use Rattle.cli_report.specs.Report.{help_words};

    ghost output = { λ help. Some (help_words help) };

    fn fmt<W: fmt::Write>(&self, f: &mut fmt::Formatter<W>) -> fmt::Result {
        match *self {
            Help::Said(sentence) => f.write_str(sentence),
            Help::Near(kind, name) => write!(f, "a {kind} with a similar name is `{name}`"),
            Help::Has(line) => write!(f, "the campaign's line is `{line}`"),
        }
    }
}

/// Returns a line as reports show it: with control characters other than the tab escaped, and with replacement
/// characters for bytes that are not UTF-8.
pub(crate) fn shown_line(alloc: Global, line: &[u8]) -> Result<String, AllocError>
    ensures { IfOk result (λ text. string_bytes text ≡ shown_line line.now) }
{
    let text = String::from_utf8_lossy(alloc, line)?;
    let shown = Escaped {
        text: text.as_str(),
        kept: Kept::Tab,
    };
    format!(in alloc; "{shown}")
}

/// Returns the first `number` bytes, or all if there are fewer.
pub(crate) fn front(bytes: &[u8], number: usize) -> &[u8]
    ensures { result.now ≡ take number bytes.now }
{
    &bytes[..number.min(bytes.len())]
}

/// Returns the bytes after the first `number` bytes, or no bytes if there are fewer.
pub(crate) fn behind(bytes: &[u8], number: usize) -> &[u8]
    ensures { result.now ≡ drop number bytes.now }
{
    &bytes[number.min(bytes.len())..]
}

/// Checks whether a UTF-8 character begins with this byte.
fn is_start(byte: u8) -> bool
    ensures { result ≡ is_char_start byte }
{
    byte < 0x80 || byte >= 0xC0
}

/// Returns what is printed below a byte before the marked part: a tab below a tab, a space below the first byte of
/// another character, and nothing below its further bytes.
fn blank_below(byte: u8) -> &'static str
    ensures { result.now ≡ blank_below byte }
{
    if byte == b'\t' {
        "\t"
    } else if is_start(byte) {
        " "
    } else {
        ""
    }
}

/// Returns what is printed below a byte of the marked part: a caret below the first byte of a character, and nothing
/// below its further bytes.
fn caret_below(byte: u8) -> &'static str
    ensures { result.now ≡ caret_below byte }
{
    if is_start(byte) { "^" } else { "" }
}

/// Appends what is printed below the bytes before the marked part: a tab for a tab, and a space for any other
/// character.
fn put_blanks(out: &mut String, bytes: &[u8]) -> Result<(), AllocError>
    ensures { OnOk result (string_bytes out.new ≡ string_bytes out.old ++ flat_map blank_below bytes.now) }
{
    for byte in bytes {
        out.push_str(blank_below(*byte))?;
    }
    Ok(())
}

/// Appends what is printed below these bytes of the marked part: a caret for each character.
fn put_carets(out: &mut String, bytes: &[u8]) -> Result<(), AllocError>
    ensures { OnOk result (string_bytes out.new ≡ string_bytes out.old ++ flat_map caret_below bytes.now) }
{
    for byte in bytes {
        out.push_str(caret_below(*byte))?;
    }
    Ok(())
}

/// Returns what is printed below a line: white space up to the marked part, and then a caret for each character of this
/// part, at least one.
#[tactic(auto, unfolding(crate::specs::Report::carets_below))]
fn carets(alloc: Global, mark: &Mark<'_>) -> Result<String, AllocError>
    ensures { IfOk result (λ text. string_bytes text ≡ carets_below (mark_view mark.now)) }
{
    let before = shown_line(alloc, front(mark.line, mark.from))?;
    let part = shown_line(alloc, front(behind(mark.line, mark.from), mark.size))?;
    let mut out = String::new(alloc);
    put_blanks(&mut out, before.as_bytes())?;
    out.push_str("^")?;
    put_carets(&mut out, behind(part.as_bytes(), 1))?;
    Ok(out)
}

/// Returns the margin of a report: as many spaces as the number has decimal digits.
fn margin(alloc: Global, number: u64) -> Result<String, AllocError>
    ensures { IfOk result (λ text. string_bytes text ≡ margin_of number) }
{
    let digits = format!(in alloc; "{number}")?;
    " ".repeat(alloc, digits.len())
}

/// Appends the line `--> NAME:NUMBER` of a report, with the file's name and the number of the line.
#[tactic(auto, unfolding(crate::specs::Report::where_text))]
fn put_where(out: &mut String, margin: &str, name: &str, number: u64) -> Result<(), AllocError>
    ensures { OnOk result (string_bytes out.new ≡ string_bytes out.old ++ where_text margin.now name.now number) }
{
    write!(out, "\n{margin}--> {name}:{number}\n")
}

/// Appends the marked line of a file after its number, as in `7 | order = x`, and an empty line of the margin before
/// it.
#[tactic(auto, unfolding(crate::specs::Report::shown_text))]
fn put_line(
    alloc: Global,
    out: &mut String,
    margin: &str,
    mark: &Mark<'_>,
) -> Result<(), AllocError>
    ensures { OnOk result (string_bytes out.new ≡ string_bytes out.old ++ shown_text margin.now (mark_view mark.now)) }
{
    let number = mark.number;
    let line = shown_line(alloc, mark.line)?;
    write!(out, "{margin} |\n{number} | {line}\n")
}

/// Appends the line of a report that has carets below the marked part.
#[tactic(auto, unfolding(crate::specs::Report::marked_text))]
fn put_marks(
    alloc: Global,
    out: &mut String,
    margin: &str,
    mark: &Mark<'_>,
) -> Result<(), AllocError>
    ensures { OnOk result (string_bytes out.new ≡ string_bytes out.old ++ marked_text margin.now (mark_view mark.now)) }
{
    let carets = carets(alloc, mark)?;
    write!(out, "{margin} | {carets}")
}

/// Appends an excerpt of a file: the file's name, the line with its number, and carets below the marked part.
fn put_excerpt(
    alloc: Global,
    out: &mut String,
    margin: &str,
    name: &str,
    mark: &Mark<'_>,
) -> Result<(), AllocError>
    ensures { OnOk result (string_bytes out.new ≡ string_bytes out.old
        ++ excerpt_text margin.now name.now (mark_view mark.now)) }
{
    put_where(out, margin, name, mark.number)?;
    put_line(alloc, out, margin, mark)?;
    put_marks(alloc, out, margin, mark)
}

/// Appends the line of a report with the help message, if there is one.
fn put_help(out: &mut String, margin: &str, help: Option<Help<'_>>) -> Result<(), AllocError>
    ensures { OnOk result (string_bytes out.new ≡ string_bytes out.old
        ++ help_text margin.now (option_map help_words help.entry)) }
{
    match help {
        Some(help) => write!(out, "\n{margin} = help: {help}"),
        None => Ok(()),
    }
}

/// Returns the report that follows a line `refused ...`: the sentence, an excerpt of the file, and the help message, if
/// there is one. If `place` is `None`, the report has only the file's name, `name`, in place of the excerpt.
#[tactic(auto, unfolding(crate::specs::Report::report_text))]
pub(crate) fn report(
    alloc: Global,
    name: &str,
    sentence: &str,
    place: Option<Mark<'_>>,
    help: Option<Help<'_>>,
) -> Result<String, AllocError>
    ensures { IfOk result (λ text. string_bytes text
        ≡ report_text name.now sentence.now (option_map mark_view place.entry) (option_map help_words help.entry)) }
{
    let mut out = format!(in alloc; "\nerror: {sentence}")?;
    match place {
        Some(mark) => {
            let margin = margin(alloc, mark.number)?;
            put_excerpt(alloc, &mut out, margin.as_str(), name, &mark)?;
            put_help(&mut out, margin.as_str(), help)?;
        }
        None => {
            write!(out, "\n --> {name}")?;
            put_help(&mut out, " ", help)?;
        }
    }
    Ok(out)
}
