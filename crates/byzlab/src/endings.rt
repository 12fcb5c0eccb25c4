//! How the requests of a call ended: their number, the worst exit status, and why the call stopped early.
ghost use Rattle.std.specs.Prelude.{◌≡◌, ◌+◌, ◌<◌, ◌^◌, None, Some, is_some, max};
ghost use Rattle.byzlab.specs.Turns.{first_unwritten};

use crate::ending::Ending;
use crate::no_request::Unasked;

/// How the requests of a call ended, which are served in order. Only functions of this file make this value: with no
/// request, with one more ending, or with words that ask for no task.
#[derive(Drop)]
pub struct Endings {
    /// How many requests were served.
    count: usize,
    /// The worst exit status of the requests, which is the greatest, or 0 if no request was served.
    worst: u8,
    /// The index, from 0, of the first request whose output failed, or `None`. After it no further answer can be
    /// written.
    unwritten: Option<usize>,
    /// The words that ask for no task, if the call ended at such words.
    unasked: Option<Unasked>,
}

impl Endings {
    /// Returns the endings of a call that has served no request yet.
    pub fn none() -> Endings
        ensures count { result.count ≡ 0 }
        ensures worst { result.worst ≡ 0 }
        ensures written { result.unwritten ≡ None }
        ensures unasked { result.unasked ≡ None }
    {
        Endings {
            count: 0,
            worst: 0,
            unwritten: None,
            unasked: None,
        }
    }

    /// Adds the ending of the next request.
    pub fn enter(&mut self, ending: Ending)
        requires { self.old.count + 1 < 2 ^ 64 }
        ensures count { self.new.count ≡ self.old.count + 1 }
        ensures worst { self.new.worst ≡ max self.old.worst ending.status }
        ensures unwritten { self.new.unwritten
            ≡ first_unwritten self.old.unwritten self.old.count ending.is_unwritten }
        ensures unasked { self.new.unasked ≡ self.old.unasked }
    {
        self.unwritten = first_unwritten(self.unwritten, self.count, ending.is_unwritten());
        self.count += 1;
        self.worst = worse(self.worst, ending.status());
    }

    /// Adds words that ask for no task. The call ends at them.
    pub fn with_unasked(self, unasked: Unasked) -> Endings
        ensures count { result.count ≡ self.count }
        ensures worst { result.worst ≡ max self.worst unasked.status }
        ensures unwritten { result.unwritten ≡ self.unwritten }
        ensures unasked { result.unasked ≡ Some unasked }
    {
        Endings {
            count: self.count,
            worst: worse(self.worst, unasked.status()),
            unwritten: self.unwritten,
            unasked: Some(unasked),
        }
    }

    /// Returns how many requests were served.
    pub fn count(&self) -> usize
        ensures { result ≡ self.now.count }
    {
        self.count
    }

    /// Returns the worst exit status, or 0 if no request was served.
    pub fn worst(&self) -> u8
        ensures { result ≡ self.now.worst }
    {
        self.worst
    }

    /// Returns whether the output of a request failed.
    pub fn is_unwritten(&self) -> bool
        ensures { result ≡ is_some self.now.unwritten }
    {
        self.unwritten.is_some()
    }
}

/// Returns the worse of two exit statuses, which is the greater one.
fn worse(first: u8, second: u8) -> u8
    ensures { result ≡ max first second }
{
    if first < second { second } else { first }
}

/// Returns the index of the first request whose output failed, now that the request with index `place` has ended.
/// `before` is this index among the earlier requests. Either is `None` if there is no such request.
fn first_unwritten(before: Option<usize>, place: usize, is_unwritten: bool) -> Option<usize>
    ensures { result ≡ first_unwritten before place is_unwritten }
{
    match before {
        Some(first) => Some(first),
        None if is_unwritten => Some(place),
        None => None,
    }
}
