//! Collects evidence that each general was given his task, and evidence that each inbox was closed.
ghost use Rattle.std.specs.Prelude.{◌≡◌, ◌+◌};

use crate::inbox::{Given, Shut};

/// Evidence that the tasks of general `from` and of all higher generals were put into their inboxes. Tasks are numbered
/// by general, from 0 to `tasks` - 1, and given in descending order.
#[derive(Drop)]
pub(crate) struct AllGiven {
    /// The lowest general who was given his task, or `tasks` if there is none yet.
    from: usize,
    /// The number of all tasks, given or not.
    tasks: usize,
}

impl AllGiven {
    /// Returns evidence for `tasks` tasks, none of which was given yet.
    pub(super) fn none_of(tasks: usize) -> AllGiven
        ensures from { result.from ≡ tasks }
        ensures tasks { result.tasks ≡ tasks }
    {
        AllGiven { from: tasks, tasks }
    }

    /// Adds evidence that the next lower general was given his task. `given` must be for general `from` - 1.
    pub(super) fn and(self, given: Given) -> AllGiven
        requires { given.general + 1 ≡ self.from }
        ensures from { result.from ≡ given.general }
        ensures tasks { result.tasks ≡ self.tasks }
    {
        AllGiven {
            from: given.general() as usize,
            tasks: self.tasks,
        }
    }
}

/// Evidence that the inboxes of the first `inboxes` generals were closed.
#[derive(Drop)]
pub(crate) struct AllShut {
    inboxes: usize,
}

impl AllShut {
    /// Returns the evidence before any inbox is closed.
    pub(super) fn none() -> AllShut
        ensures { result.inboxes ≡ 0 }
    {
        AllShut { inboxes: 0 }
    }

    /// Adds evidence that the next general's inbox was closed. `shut` must be for general `inboxes`.
    pub(super) fn and(self, shut: Shut) -> AllShut
        requires { shut.general ≡ self.inboxes }
        ensures { result.inboxes ≡ self.inboxes + 1 }
    {
        AllShut {
            inboxes: shut.general() as usize + 1,
        }
    }
}
