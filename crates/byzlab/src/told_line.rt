//! Reports that a task is not done: on standard error, or on standard output as JSON or as one line.
ghost use Rattle.std.specs.Prelude.{◌≡◌, ◌⊎◌, IfSome, codes, false, is_some, true};
ghost use Rattle.cli_tasks.specs.Serving.{Tells};
ghost use Rattle.cli_answers.specs.Printing.{is_shaped};
ghost use Rattle.cli_answers.specs.Serving.{IsRefusalShown};
ghost use Rattle.byzlab.specs.Failures.{status_said};

use crate::watched_stream::Watched;
use cli_answers::turned_down;
use cli_words::TaskRequest;
use std::alloc::Global;
use std::fmt::Display;
use std::io::Write;
use std::marker::PhantomData;
use streams::Output;

/// A record of a line that was reported and says why a task is not done. `W` is the type of standard output, and `F` is
/// the type of standard error. Only `told_on` makes this value.
#[derive(Drop)]
pub struct ReportedLine<D: Display + Drop, W, F> {
    line: D,
    said: ReportOutcome,
    output: PhantomData<W>,
    fault: PhantomData<F>,
}

/// How the report of a line went, without the line itself.
#[derive(Drop)]
pub struct ReportOutcome {
    /// Whether memory ran out while the line was put into its form. In that case `out of memory` was reported instead.
    is_lacking: bool,
    /// Whether the output failed while the line was written, so that no further answer can be written.
    is_unwritten: bool,
}

/// Reports with this line that a task is not done, as `cli_answers::turned_down` does. The contract allows each write
/// to the output to fail.
pub fn told_on<D, W, F>(
    alloc: Global,
    request: &TaskRequest,
    line: D,
    out: &mut Watched<W>,
    fault: &mut F,
) -> ReportedLine<D, W, F>
where
    D: Display + Drop,
    W: Write + Drop,
    F: Output,
    ensures line { result.line ≡ line }
    // The request asks for neither JSON nor one line.
    ensures plain { is_shaped request.now ≡ false → (result.said.is_lacking ≡ false) × (out.new ≡ out.old)
        × IfSome (D.output line) (Tells (F.fails fault.old) (F.contents fault.old) (F.contents fault.new)) }
    // The request asks for JSON or for one line.
    ensures shown { is_shaped request.now ≡ true → result.said.is_lacking ≡ false →
        IfSome (D.output line)
        (IsRefusalShown (fault.new ≡ fault.old) (Unit {0})
        (Tells (F.fails fault.old) (F.contents fault.old) (F.contents fault.new)) request.now
        (W.contents out.old.stream) (W.contents out.new.stream)) }
    ensures unprinted { result.said.is_lacking ≡ true → out.new ≡ out.old }
    ensures memory { result.said.is_lacking ≡ true →
        Tells (F.fails fault.old) (F.contents fault.old) (F.contents fault.new) (codes "out of memory") }
    ensures unwritten { result.said.is_unwritten ≡ is_some out.new.fault }
{
    let status = turned_down(alloc, request, &line, out, fault);
    ReportedLine {
        line,
        said: ReportOutcome {
            is_lacking: status == 3,
            is_unwritten: out.fault().is_some(),
        },
        output: PhantomData,
        fault: PhantomData,
    }
}

impl<D: Display + Drop, W, F> ReportedLine<D, W, F> {
    /// Returns how the report went: whether memory ran out, and whether the output failed.
    pub fn said(self) -> ReportOutcome
        ensures { result ≡ self.said }
    {
        self.said
    }
}

impl ReportOutcome {
    /// Returns the exit status: 1, or 3 if memory ran out for the report.
    pub fn status(&self) -> u8
        ensures status { result ≡ status_said self.now.is_lacking }
        ensures either { (result ≡ 1) ⊎ (result ≡ 3) }
    {
        if self.is_lacking { 3 } else { 1 }
    }

    /// Returns whether the output failed, so that no further answer can be written.
    pub fn is_unwritten(&self) -> bool
        ensures { result ≡ self.now.is_unwritten }
    {
        self.is_unwritten
    }
}
