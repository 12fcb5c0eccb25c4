//! Defines the inbox, from which a general's thread takes its tasks.
ghost use Rattle.std.specs.Prelude.{◌≡◌, ◌≢◌, IfErr, MatchResult};
ghost use Rattle.threads.specs.Inboxes.{left_in};
ghost use Rattle.threads.specs.declared.inbox.Phase.TheVariants.{Waiting as NoneYet, Given as Tasked, Closed as NoMore};

mod steps;

use crate::camp::Home;
use crate::task::Task;
use std::mem;
use std::sync::{Condvar, Mutex, Wait};
pub(crate) use steps::{Given, Shut};

/// The state of an inbox.
#[derive(Drop)]
enum Phase {
    /// There is no task yet.
    Waiting,
    /// There is a task for the general's thread to take.
    Given(Task),
    /// No more tasks will come, so the general's thread ends.
    Closed(Home),
}

impl Phase {
    /// Takes the task out of the inbox. The inbox must have a task or be closed. A closed inbox stays closed.
    ///
    /// # Errors
    ///
    /// `Home` if the inbox is closed, so that no more tasks will come.
    fn take(&mut self) -> Result<Task, Home>
        requires waited { self.old ≢ NoneYet }
        ensures task { MatchResult result (λ task. self.old ≡ Tasked task) (λ home. self.old ≡ NoMore home) }
        ensures left { self.new ≡ left_in self.old }
    {
        match mem::replace(self, Phase::Waiting) {
            Phase::Given(task) => Ok(task),
            Phase::Closed(home) => {
                *self = Phase::Closed(home);
                Err(home)
            }
            Phase::Waiting => unreachable!(),
        }
    }
}

/// Evidence that a general's inbox was found closed. Only `Inbox::next` creates one.
#[derive(Drop)]
pub(crate) struct Closed {
    /// The general whose inbox was found closed.
    general: u32,
    /// Evidence that no more tasks will come.
    home: Home,
}

/// The inbox of one general. It holds at most one task, which his thread takes out.
#[derive(Drop)]
pub(crate) struct Inbox {
    /// The general whose inbox it is.
    pub(crate) general: u32,
    phase: Mutex<Phase>,
    changed: Condvar,
}

impl Inbox {
    /// Returns an empty inbox of this general.
    pub(crate) fn new(general: u32) -> Inbox
        ensures { result.general ≡ general }
    {
        Inbox {
            general,
            phase: Mutex::new(Phase::Waiting),
            changed: Condvar::new(),
        }
    }

    /// Puts a task of the inbox's general into the inbox, and wakes his thread. Returns evidence that the task was
    /// given.
    pub(crate) fn put<R: Wait>(&self, rt: &R, task: Task) -> Given
        requires { task.general ≡ self.now.general }
        ensures { result.general ≡ self.now.general }
    {
        let given = self.phase.lock(rt).give(task);
        self.changed.notify_one();
        given
    }

    /// Closes the inbox, so that its general gets no more tasks, and wakes his thread. Returns evidence that the inbox
    /// was closed.
    pub(crate) fn close<R: Wait>(&self, rt: &R, home: Home) -> Shut
        ensures { result.general ≡ self.now.general }
    {
        let shut = self.phase.lock(rt).close(self.general, home);
        self.changed.notify_one();
        shut
    }

    /// Waits until the inbox has a task, takes it out and returns it.
    ///
    /// # Errors
    ///
    /// `Closed` if the inbox is closed.
    pub(crate) fn next<R: Wait>(&self, rt: &R) -> Result<Task, Closed>
        ensures { IfErr result (λ closed. closed.general ≡ self.now.general) }
    {
        let mut phase = self.changed.wait_while(rt, self.phase.lock(rt), |phase| {
            matches!(phase, Phase::Waiting)
        });
        match phase.take() {
            Ok(task) => Ok(task),
            Err(home) => Err(Closed {
                general: self.general,
                home,
            }),
        }
    }
}
