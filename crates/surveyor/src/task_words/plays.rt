//! Turns the parsed options into a survey: the numbers of generals, the bound, the traitors, the seeds, the commander,
//! the orders, how messages are sent, and what is printed.
ghost use Rattle.std.specs.Prelude.{true, ◌≡◌, ◌≤◌, IfErr, IfOk, MatchResult, codes, option_map, string_bytes};
ghost use Rattle.clap.specs.Words.{found_of, rows_of};
ghost use Rattle.surveyor.specs.Asked.{IsSurvey};
ghost use Rattle.surveyor.specs.Flags.{given, has};
ghost use Rattle.surveyor.specs.Meant.{AreAllKept, AreOrders, AreSeeds, IsCommander, IsPatience, IsSurveying, IsWithin, bars_keeping, complaint_in, detailed, first_of, folder_in, form_complaint, in_csv, shape_by, shape_in, some_traitors};
ghost use Rattle.surveyor.specs.Words.{manner_named, plain_manner};
ghost use Rattle.surveyor.specs.Wrong.{AreNoOrders, AreNoSeeds, IsNoCommander, IsNoManner, IsNoPatience, IsOutside, IsRefused, IsSaid};
ghost use Rattle.surveyor.specs.declared.task.Survey.{Survey};

use crate::numbers::{orders, patience, seeds, small, span};
use crate::task::{AskedError, ReportKind, Survey};
use crate::word_values::{given, has, value};
use clap::ArgMatches;
use combine::Rule;
use std::alloc::{AllocError, Global};
use surveys::{CountRange, Manner};

const GENERALS: &str = "--generals takes 2 to 13, such as 4 or 4..7";

const BOUND: &str = "--bound takes 0 to 4, such as 1 or 1..2";

const TRAITORS: &str = "--traitors takes 0 to 13, such as 1 or 1..3";

const COMMANDER: &str = "--commander takes a number below the least of --generals";

const ORDERS: &str = "--orders takes 0..1 to 0..255";

const SEEDS: &str =
    "--seeds takes at most 10000000 seeds below 18446744073709551615, such as 7 or 1..1000";

const PATIENCE: &str = "--patience takes 1 to 4096";

const SIGNED: &str = "signed messages have no rule";

const CSV: &str = "--csv can be used only by itself or with --table";

const DETAILS: &str = "--details can be used only with --lines";

const KEEP: &str = "--keep-all cannot be used with --keep or --shrink";

const SHAPE: &str = "only one of --lines, --table, --svg, --shrink and --break can be used";

/// Parses a range of numbers from `least` to `most`, such as `4` or `4..7`.
///
/// # Errors
///
/// Fails with the message `why` if the word is not such a range.
fn within(word: &str, least: u8, most: u8, why: &'static str) -> Result<CountRange, AskedError>
    requires { most ≤ 13 }
    ensures told { IfOk result (IsWithin least most word.now) }
    ensures refused { IfErr result (IsSaid why.entry.now (IsOutside least most word.now)) }
{
    match span(word) {
        Some(span) if least <= span.low && span.high <= most => Ok(span),
        _ => Err(AskedError::Value(why)),
    }
}

/// Parses the number of the commander. It must be less than `generals`, the least number of generals in a campaign.
///
/// # Errors
///
/// Fails if the word is not such a number.
fn told_commander(word: &str, generals: u8) -> Result<u8, AskedError>
    ensures told { IfOk result (IsCommander generals word.now) }
    ensures refused { IfErr result (IsSaid (codes "--commander takes a number below the least of --generals")
        (IsNoCommander generals word.now)) }
{
    match small(generals, word) {
        Some(commander) => Ok(commander),
        None => Err(AskedError::Value(COMMANDER)),
    }
}

/// Parses the range of orders `0..V`, and returns V.
///
/// # Errors
///
/// Fails if the word is not `0..V` with V from 1 to 255.
fn told_orders(word: &str) -> Result<u8, AskedError>
    ensures told { IfOk result (AreOrders word.now) }
    ensures refused { IfErr result (IsSaid (codes "--orders takes 0..1 to 0..255") (AreNoOrders word.now)) }
{
    match orders(word) {
        Some(most) => Ok(most),
        None => Err(AskedError::Value(ORDERS)),
    }
}

/// Parses the range of seeds of a survey, and returns the first and the last seed.
///
/// # Errors
///
/// Fails if the word is not a range of at most 10,000,000 seeds, each less than 2^64 - 1.
pub(super) fn told_seeds(word: &str) -> Result<(u64, u64), AskedError>
    ensures told { IfOk result (AreSeeds word.now) }
    ensures refused { IfErr result (IsSaid
        (codes "--seeds takes at most 10000000 seeds below 18446744073709551615, such as 7 or 1..1000")
        (AreNoSeeds word.now)) }
{
    match seeds(word) {
        Some(seeds) => Ok(seeds),
        None => Err(AskedError::Value(SEEDS)),
    }
}

/// Returns how messages are sent: signed if `is_signed` is set, and otherwise orally, with the orders combined by
/// `rule`. Returns `None` if there is no rule with this name, or if a rule is given for signed messages.
fn manner_named(rule: Option<&str>, is_signed: bool) -> Option<Manner>
    ensures { result ≡ manner_named (option_map (λ word. word.now) rule.entry) is_signed }
{
    let Some(rule) = rule else {
        return Some(plain_manner(is_signed));
    };
    if is_signed {
        return None;
    }
    match Rule::named(rule.as_bytes()) {
        Some(rule) => Some(Manner::Oral(rule)),
        None => None,
    }
}

/// Returns how messages are sent if no rule is given: signed, or orally with the default rule.
fn plain_manner(is_signed: bool) -> Manner
    ensures { result ≡ plain_manner is_signed }
{
    if is_signed {
        Manner::Signed
    } else {
        Manner::Oral(Rule::DEFAULT)
    }
}

/// Returns how messages are sent, as the options `--rule` and `--signed` say.
///
/// # Errors
///
/// Fails if there is no rule with the given name, or if a rule is given for signed messages.
fn manner(found: &ArgMatches) -> Result<Manner, AskedError>
    ensures told { let rows = rows_of (found_of found.now) in
        IfOk result (λ manner. manner_named (given (codes "rule") rows) (has (codes "signed") rows) ≡ Some manner) }
    ensures refused { IfErr result (IsNoManner (rows_of (found_of found.now))) }
{
    let is_signed = has(found, "signed");
    match manner_named(given(found, "rule"), is_signed) {
        Some(manner) => Ok(manner),
        None if is_signed => Err(AskedError::Value(SIGNED)),
        None => Err(AskedError::Rule),
    }
}

/// Returns the form of output that the switches `--lines`, `--table`, `--svg` and `--shrink` select. Returns `None` if
/// more than one of them is given.
fn shape_by(lines: bool, table: bool, svg: bool, shrink: bool) -> Option<ReportKind>
    ensures { result ≡ shape_by lines table svg shrink }
{
    match (lines, table, svg, shrink) {
        (false, false, false, false) => Some(ReportKind::Sums),
        (true, false, false, false) => Some(ReportKind::Lines),
        (false, true, false, false) => Some(ReportKind::Table),
        (false, false, true, false) => Some(ReportKind::Picture),
        (false, false, false, true) => Some(ReportKind::Least),
        _ => None,
    }
}

/// Returns the form of output with `--details`, where `shape` is the form without it. Returns `None` if `--details` is
/// given but `shape` is not a line for each campaign.
fn detailed(details: bool, shape: Option<ReportKind>) -> Option<ReportKind>
    ensures { result ≡ detailed details shape }
{
    if !details {
        return shape;
    }
    match shape? {
        ReportKind::Lines => Some(ReportKind::Accounts),
        ReportKind::Sums
        | ReportKind::Accounts
        | ReportKind::Table
        | ReportKind::Csv
        | ReportKind::Picture
        | ReportKind::Least => None,
    }
}

/// Returns the form of output with `--csv`, where `shape` is the form without it. Returns `None` if `--csv` is given
/// but `shape` is neither the sums nor the table.
fn in_csv(csv: bool, shape: Option<ReportKind>) -> Option<ReportKind>
    ensures { result ≡ in_csv csv shape }
{
    if !csv {
        return shape;
    }
    match shape? {
        ReportKind::Sums | ReportKind::Table => Some(ReportKind::Csv),
        ReportKind::Lines
        | ReportKind::Accounts
        | ReportKind::Csv
        | ReportKind::Picture
        | ReportKind::Least => None,
    }
}

/// Returns the message about switches that select no form of output. `plain` is the form without `--details` and
/// `--csv`, and `detailed` the form without `--csv`. Each is `None` if there is no such form.
fn form_complaint(plain: Option<ReportKind>, detailed: Option<ReportKind>) -> &'static str
    ensures { result.now ≡ form_complaint plain detailed }
{
    match (plain, detailed) {
        (None, _) => SHAPE,
        (Some(_), None) => DETAILS,
        (Some(_), Some(_)) => CSV,
    }
}

/// Returns the form of output that the switches select.
///
/// # Errors
///
/// Fails if more than one form is selected, if `--details` is given without `--lines`, or if `--csv` is given with
/// another form than a table.
pub(super) fn printed(found: &ArgMatches) -> Result<ReportKind, AskedError>
    ensures { let rows = rows_of (found_of found.now) in
        MatchResult result (λ s. shape_in rows ≡ Some s) (IsSaid (complaint_in rows) (shape_in rows ≡ None)) }
{
    let plain = shape_by(
        has(found, "lines"),
        has(found, "table"),
        has(found, "svg"),
        has(found, "shrink"),
    );
    let detailed = detailed(has(found, "details"), plain);
    match in_csv(has(found, "csv"), detailed) {
        Some(shape) => Ok(shape),
        None => Err(AskedError::Value(form_complaint(plain, detailed))),
    }
}

/// Returns the value of `--patience`: how many steps a traitor's program may take in a round. Returns `None` if the
/// option is not given.
///
/// # Errors
///
/// Fails if the value is not a number from 1 to 4,096.
fn patience_of(found: &ArgMatches) -> Result<Option<u32>, AskedError>
    ensures told { IfOk result (IsPatience (given (codes "patience") (rows_of (found_of found.now)))) }
    ensures refused { IfErr result (IsSaid (codes "--patience takes 1 to 4096")
        (IsNoPatience (given (codes "patience") (rows_of (found_of found.now))))) }
{
    match given(found, "patience") {
        None => Ok(None),
        Some(word) => match patience(word) {
            Some(steps) => Ok(Some(steps)),
            None => Err(AskedError::Value(PATIENCE)),
        },
    }
}

/// Returns a copy of a text, or `None` if there is no text.
///
/// # Errors
///
/// Fails with `AllocError` if memory runs out.
fn owned(alloc: Global, text: Option<&str>) -> Result<Option<String>, AllocError>
    ensures { IfOk result (λ copy. option_map string_bytes copy ≡ option_map (λ t. t.now) text.entry) }
{
    match text {
        None => Ok(None),
        Some(text) => Ok(Some(String::from_str(alloc, text)?)),
    }
}

/// Returns `first` or, if it is `None`, `second`.
fn first_of<'a>(first: Option<&'a str>, second: Option<&'a str>) -> Option<&'a str>
    ensures { option_map (λ t. t.now) result
        ≡ first_of (option_map (λ t. t.now) first.entry) (option_map (λ t. t.now) second.entry) }
{
    match first {
        Some(first) => Some(first),
        None => second,
    }
}

/// Returns the folder of `--keep` or `--keep-all`, or `None` if neither is given.
fn folder<'a>(found: &ArgMatches<'a>) -> Option<&'a str>
    ensures { option_map (λ t. t.now) result ≡ folder_in (rows_of (found_of found.now)) }
{
    first_of(given(found, "keep"), given(found, "keep-all"))
}

/// Checks whether `--keep-all` is given together with `--keep` or `--shrink`.
fn bars_keeping(found: &ArgMatches) -> bool
    ensures { result ≡ bars_keeping (rows_of (found_of found.now)) }
{
    has(found, "keep-all") && (has(found, "keep") || has(found, "shrink"))
}

/// Returns whether all campaigns are written to the folder: whether `--keep-all` is given.
///
/// # Errors
///
/// Fails if `--keep-all` is given together with `--keep` or `--shrink`.
fn keeps_all(found: &ArgMatches) -> Result<bool, AskedError>
    ensures told { IfOk result (AreAllKept (rows_of (found_of found.now))) }
    ensures refused { IfErr result (IsSaid (codes "--keep-all cannot be used with --keep or --shrink")
        (bars_keeping (rows_of (found_of found.now)) ≡ true)) }
{
    if bars_keeping(found) {
        return Err(AskedError::Value(KEEP));
    }
    Ok(has(found, "keep-all"))
}

/// Returns the default of `--traitors`: `1..13` with `--break`, and otherwise `1`.
fn some_traitors(found: &ArgMatches) -> &'static str
    ensures { result.now ≡ some_traitors (rows_of (found_of found.now)) }
{
    if has(found, "break") { "1..13" } else { "1" }
}

/// Returns the survey that the options describe. An option that is not given has its default.
///
/// # Errors
///
/// Fails if a value is wrong, if two options cannot be used together, or if memory runs out.
#[tactic(auto, using(crate::proofs::MeantLemmas::no_generals, crate::proofs::MeantLemmas::no_traitors, crate::proofs::MeantLemmas::no_seeds, crate::proofs::MeantLemmas::no_commander, crate::proofs::MeantLemmas::no_orders, crate::proofs::MeantLemmas::no_manner, crate::proofs::MeantLemmas::no_patience, crate::proofs::MeantLemmas::no_shape, crate::proofs::MeantLemmas::no_keeping))]
pub(super) fn survey_of(alloc: Global, found: &ArgMatches) -> Result<Survey, AskedError>
    ensures survey { IfOk result IsSurvey }
    ensures told { IfOk result (IsSurveying (rows_of (found_of found.now))) }
    ensures refused { let rows = rows_of (found_of found.now) in
        IfErr result (IsRefused rows ((s : Survey) → IsSurveying rows s → ⊥)) }
{
    let generals = within(value(found, "generals", "4"), 2, 13, GENERALS)?;
    let bound = within(value(found, "bound", "1"), 0, 4, BOUND)?;
    let some = some_traitors(found);
    let traitors = within(value(found, "traitors", some), 0, 13, TRAITORS)?;
    let (first, last) = told_seeds(value(found, "seeds", "1..1000"))?;
    let commander = told_commander(value(found, "commander", "0"), generals.low)?;
    let orders = told_orders(value(found, "orders", "0..1"))?;
    let manner = manner(found)?;
    let patience = patience_of(found)?;
    let shape = printed(found)?;
    let keeps_all = keeps_all(found)?;
    Ok(Survey {
        generals,
        bound,
        traitors,
        commander,
        orders,
        grid: has(found, "grid"),
        manner,
        patience,
        adversary: String::from_str(alloc, value(found, "adversary", "lies"))?,
        first,
        last,
        shape,
        keep: owned(alloc, folder(found))?,
        keeps_all,
    })
}
