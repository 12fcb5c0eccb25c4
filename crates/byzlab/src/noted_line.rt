//! Reports a line on standard error, but not on standard output.
ghost use Rattle.std.specs.Prelude.{◌≡◌, IfSome};
ghost use Rattle.cli_tasks.specs.Serving.{Tells};

use std::fmt::Display;
use std::marker::PhantomData;
use streams::Output;

/// A record that a line was reported on a stream of type `F`. It also exists if the write failed. Only `noted_on` makes
/// this value.
#[derive(Drop)]
pub struct Noted<D: Display + Drop, F> {
    line: D,
    fault: PhantomData<F>,
}

/// Reports this line on the stream `fault`. If the write fails, ignores this.
pub fn noted_on<D: Display + Drop, F: Output>(line: D, fault: &mut F) -> Noted<D, F>
    ensures line { result.line ≡ line }
    ensures told { IfSome (D.output line)
        (Tells (F.fails fault.old) (F.contents fault.old) (F.contents fault.new)) }
{
    let _ = fault.tell(&line);
    Noted {
        line,
        fault: PhantomData,
    }
}
