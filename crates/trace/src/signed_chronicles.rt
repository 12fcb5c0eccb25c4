//! Writes the chronicles of signed campaigns to a sink.
ghost use Rattle.std.specs.Prelude.{◌≡◌, IfErr, OnOk, is_err};
ghost use Rattle.std.specs.Io.KnownBytes.{Appends};
ghost use Rattle.trace.specs.declared.fault.TraceError.TheVariants.{Write as unwritten};
ghost use Rattle.trace.specs.SignedText.{head_lines, signed_text};
ghost use Rattle.trace.specs.Sinks.{Wrote};
ghost use Rattle.trace.specs.Text.{text};

use crate::chronicles::{put_campaign_of, written};
use crate::fault::TraceError;
use crate::letters::put_decisions;
use crate::lines::{put_order, put_verdict};
use crate::signed_letters::put_signed_rounds;
use crate::sink::Sink;
use crate::writer::put_all;
use round::Scenario;
use signed::SignedChronicle;

/// Writes the first two lines of a signed campaign's chronicle. The first names version 3, and the second describes the
/// campaign.
fn put_signed_head<S: Sink>(sink: &mut S, scenario: &Scenario)
    ensures { Wrote (S.contents sink.old) (S.has_failed sink.old) (text (head_lines scenario.now)) (S.contents sink.new)
        (S.has_failed sink.new) }
{
    put_all(sink, b"chronicle 3\nsigned ");
    put_campaign_of(sink, scenario);
    put_all(sink, b" patience");
    put_order(sink, scenario.patience());
    put_all(sink, b"\n");
}

/// Writes all lines of a signed campaign's chronicle.
pub(crate) fn put_signed<S: Sink>(sink: &mut S, chronicle: &SignedChronicle)
    ensures { Wrote (S.contents sink.old) (S.has_failed sink.old) (signed_text chronicle.now) (S.contents sink.new)
        (S.has_failed sink.new) }
{
    put_signed_head(sink, chronicle.scenario());
    put_signed_rounds(sink, chronicle);
    put_decisions(sink, chronicle.scenario(), chronicle.decisions());
    put_verdict(sink, chronicle.verdict());
}

/// Writes the text of a signed campaign's chronicle, in version 3. It allocates no memory.
///
/// # Errors
///
/// `Write` exactly if the sink has failed when the function returns. Then at most a beginning of the text was written.
/// Nothing was written if the sink had failed before the call.
pub fn write_signed<S: Sink>(chronicle: &SignedChronicle, sink: &mut S) -> Result<(), TraceError>
    ensures written { OnOk result (Appends (S.contents sink.old) (S.contents sink.new) (signed_text chronicle.now)) }
    ensures beginning { Wrote (S.contents sink.old) (S.has_failed sink.old) (signed_text chronicle.now)
        (S.contents sink.new) (S.has_failed sink.new) }
    ensures fault { IfErr result (λ e. e ≡ unwritten) }
    ensures exactly { is_err result ≡ S.has_failed sink.new }
{
    put_signed(sink, chronicle);
    written(sink)
}
