//! Changes the state of an inbox: gives it a task, or closes it. Each function returns evidence that nothing else can
//! create.
ghost use Rattle.std.specs.Prelude.{◌≡◌};
ghost use Rattle.threads.specs.declared.inbox.Phase.TheVariants.{Given as Tasked, Closed as NoMore};

use crate::camp::Home;
use crate::inbox::Phase;
use crate::task::Task;

/// Evidence that a task was put into an inbox. Only `Phase::give` creates one.
#[derive(Drop)]
pub(crate) struct Given {
    /// The general whose task was given.
    general: u32,
}

impl Given {
    /// Returns the general whose task was given.
    pub(crate) fn general(&self) -> u32
        ensures { result ≡ self.now.general }
    {
        self.general
    }
}

/// Evidence that an inbox was closed. Only `Phase::close` creates one.
#[derive(Drop)]
pub(crate) struct Shut {
    /// The general whose inbox was closed.
    general: u32,
}

impl Shut {
    /// Returns the general whose inbox was closed.
    pub(crate) fn general(&self) -> u32
        ensures { result ≡ self.now.general }
    {
        self.general
    }
}

impl Phase {
    /// Puts a task into the inbox, and returns the evidence that it was given.
    pub(super) fn give(&mut self, task: Task) -> Given
        ensures task { self.new ≡ Tasked task }
        ensures given { result.general ≡ task.general }
    {
        let general = task.general();
        *self = Phase::Given(task);
        Given { general }
    }

    /// Closes the inbox of this general for good, and returns the evidence for it. `home` is evidence that no more
    /// tasks will come.
    pub(super) fn close(&mut self, general: u32, home: Home) -> Shut
        ensures home { self.new ≡ NoMore home }
        ensures shut { result.general ≡ general }
    {
        *self = Phase::Closed(home);
        Shut { general }
    }
}
