//! Writes the first two lines of a chronicle to a sink. The first names the version, and the second describes the
//! campaign.
ghost use Rattle.std.specs.Prelude.{◌≡◌, ◌∷◌, [], Option};
ghost use Rattle.combine.specs.Rule.{rule_name};
ghost use Rattle.trace.specs.Sinks.{Wrote};
ghost use Rattle.trace.specs.Text.{spaced, further, text, version_line, campaign_words, further_words};

use crate::lines::put_order;
use crate::sink::Sink;
use crate::version::Version;
use crate::writer::{put_all, put_headed};
use combine::Rule;

/// Writes the first line of a chronicle, which names the version, such as `chronicle 1`.
pub fn put_version<S: Sink>(sink: &mut S, version: Version)
    ensures { Wrote (S.contents sink.old) (S.has_failed sink.old) (text (version_line version ∷ []))
        (S.contents sink.new) (S.has_failed sink.new) }
{
    match version {
        Version::First => put_all(sink, b"chronicle 1\n"),
        Version::Second => put_all(sink, b"chronicle 2\n"),
    }
}

/// Writes the numbers in the second line of a chronicle, such as `generals 4 bound 1 commander 0 order 1`.
pub fn put_campaign<S: Sink>(sink: &mut S, generals: u32, bound: u32, commander: u32, order: u32)
    ensures { Wrote (S.contents sink.old) (S.has_failed sink.old)
        (spaced (campaign_words generals bound commander order)) (S.contents sink.new) (S.has_failed sink.new) }
{
    put_headed(sink, b"generals", generals as u64);
    put_headed(sink, b" bound", bound as u64);
    put_headed(sink, b" commander", commander as u64);
    put_headed(sink, b" order", order as u64);
}

/// Writes a space and the name of the rule.
fn put_rule<S: Sink>(sink: &mut S, rule: Rule)
    ensures { Wrote (S.contents sink.old) (S.has_failed sink.old) (32 ∷ rule_name rule) (S.contents sink.new)
        (S.has_failed sink.new) }
{
    put_all(sink, b" ");
    put_all(sink, rule.name().as_bytes());
}

/// Writes the patience and the rule as the second version has them, such as ` patience 100 rule majority`. A dash means
/// no patience.
fn put_conditions<S: Sink>(sink: &mut S, patience: Option<u32>, rule: Rule)
    ensures { Wrote (S.contents sink.old) (S.has_failed sink.old) (further (further_words Version.Second patience rule))
        (S.contents sink.new) (S.has_failed sink.new) }
{
    put_all(sink, b" patience");
    put_order(sink, patience);
    put_all(sink, b" rule");
    put_rule(sink, rule);
}

/// Writes the end of the second line of a chronicle: the patience and the rule in the second version, nothing in the
/// first.
pub fn put_further<S: Sink>(sink: &mut S, version: Version, patience: Option<u32>, rule: Rule)
    ensures { Wrote (S.contents sink.old) (S.has_failed sink.old) (further (further_words version patience rule))
        (S.contents sink.new) (S.has_failed sink.new) }
{
    match version {
        Version::First => {}
        Version::Second => put_conditions(sink, patience, rule),
    }
}
