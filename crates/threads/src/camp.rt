//! Defines what the generals' threads of a campaign share: the gate, the board, the inboxes, the post and the count of
//! posted letters.
ghost use Rattle.std.specs.Prelude.{◌≡◌, ℕ, ◌<◌, ◌≤◌, ◌∷◌, [], List, length, slice_index_or, IfOk};
ghost use Rattle.round.specs.Letters.{Letter as LetterSeen};
ghost use Rattle.threads.specs.Seen.{PosterSeen, poster_seen};
ghost use Rattle.world.specs.Kind.{each};
ghost use Rattle.threads.specs.Duties.{duty_of};
ghost use Rattle.threads.specs.Inboxes.{AreByGeneral, AreOwn};

mod receipts;

use crate::claim::Claim;
use crate::collector::Collector;
use crate::delivered::Delivered;
use crate::inbox::Inbox;
use crate::post::PostOf;
use crate::poster::Poster;
use crate::resident::GeneralThread;
use crate::tally::PostedCount;
use crate::task::Task;
use receipts::AllGiven;
pub(crate) use receipts::AllShut;
use round::Scenario;
use shared_board::{Room, SharedBoard};
use std::alloc::{AllocError, Global};
use std::snapshot::Snapshot;
use std::sync::Wait;

/// Evidence that all generals were given their tasks of one round. Only `Crew::hand_out` creates one.
#[derive(Drop)]
pub(crate) struct HandedOut<D> {
    /// The scenario to which the tasks belong.
    scenario: Snapshot<Scenario>,
    /// What the letters of the rounds before the tasks' round have delivered.
    told: Snapshot<D>,
    /// Evidence that each task was put into its general's inbox.
    given: AllGiven,
}

/// Evidence that no more tasks will come, so that the generals' threads may end. Only `Crew::close` creates one.
#[derive(Clone, Copy)]
pub(crate) struct Home(());

/// What the generals' threads share with each other and with the thread that conducts the rounds: the gate, the board,
/// an inbox for each general's tasks, the post for the letters, and the count of posted letters.
#[derive(Drop)]
pub(crate) struct Crew<'a, G, J: Room, C: Claim> {
    pub(crate) gate: &'a G,
    pub(crate) board: &'a SharedBoard<J>,
    pub(crate) inboxes: Vec<Inbox>,
    pub(crate) post: PostOf<C>,
    pub(crate) tally: PostedCount,
}

impl<'a, G, J: Room, C: Claim> Crew<'a, G, J, C> {
    /// Returns what the threads of `generals` generals share, the generals' posters, ascending by general, and the
    /// collector of their letters. The post has room for one letter from each general.
    ///
    /// # Errors
    ///
    /// `AllocError` if an allocation fails.
    pub(crate) fn new(
        alloc: Global,
        generals: u8,
        gate: &'a G,
        board: &'a SharedBoard<J>,
    ) -> Result<(Crew<'a, G, J, C>, Vec<Poster>, Collector), AllocError>
        requires { 0 < generals }
        ensures inboxes { IfOk result (λ r. length r.0.inboxes.items ≡ generals) }
        ensures own { IfOk result (λ r. AreOwn r.0.inboxes.items) }
        ensures count { IfOk result (λ r. length r.1.items ≡ generals) }
        ensures posters { IfOk result (λ r. (g : ℕ) (d : PosterSeen) → g < generals →
            slice_index_or r.1.items g d ≡ poster_seen r.0.post.table g []) }
        ensures collector { IfOk result (λ r. r.2.table ≡ r.0.post.table) }
        ensures room { IfOk result (λ r. generals ≤ r.0.post.capacity) }
        ensures gate { IfOk result (λ r. r.0.gate ≡ gate.entry) }
        ensures board { IfOk result (λ r. r.0.board ≡ board.entry) }
        ensures tally { IfOk result (λ r. r.0.tally.generals ≡ generals) }
    {
        let (post, posters, collector) = PostOf::new(alloc, generals, usize::from(generals))?;
        let inboxes = empty_inboxes(alloc, generals)?;
        let tally = PostedCount::new(usize::from(generals));
        let camp = Crew {
            gate,
            board,
            inboxes,
            post,
            tally,
        };
        Ok((camp, posters, collector))
    }

    /// Returns the general of this number with his inbox, for his thread to run.
    pub(crate) fn resident<'c>(&'c self, general: u8) -> GeneralThread<'c, G, J>
        requires inbox { general < length self.now.inboxes.items }
        requires own { AreOwn self.now.inboxes.items }
        ensures inbox { result.inbox.now.general ≡ general }
        ensures general { result.general ≡ general }
        ensures gate { result.gate ≡ self.now.gate }
        ensures board { result.board ≡ self.now.board }
        ensures tally { result.tally.now ≡ self.now.tally }
    {
        GeneralThread {
            general: u32::from(general),
            gate: self.gate,
            board: self.board,
            inbox: &self.inboxes[usize::from(general)],
            tally: &self.tally,
        }
    }

    /// Puts each general's task into his inbox. `tasks` are their tasks in the next round, ascending by general, and
    /// `told` is what the letters of the earlier rounds have delivered.
    pub(crate) fn hand_out<R: Wait, D: Delivered>(
        &self,
        rt: &R,
        scenario: &Scenario,
        told: &D,
        mut tasks: Vec<Task>,
    ) -> HandedOut<D>
        requires few { length tasks.items ≤ length self.now.inboxes.items }
        requires own { AreOwn self.now.inboxes.items }
        requires tasks { AreByGeneral tasks.items }
        requires duties { (before : List (List LetterSeen)) → D.was_told scenario.now before told.now
            → tasks.items ≡ each scenario.now.generals (λ g. duty_of D.kind scenario.now before g ∷ []) }
        ensures scenario { result.scenario.value ≡ scenario.now }
        ensures told { result.told.value ≡ told.now }
        ensures given { (result.given.from ≡ 0) × (result.given.tasks ≡ length tasks.items) }
    {
        let mut given = AllGiven::none_of(tasks.len());
        while let Some(task) = tasks.pop() {
            given = given.and(self.inboxes[tasks.len()].put(rt, task));
        }
        HandedOut {
            scenario: Snapshot::of(scenario),
            told: Snapshot::of(told),
            given,
        }
    }

    /// Closes all inboxes, so that the generals' threads end. Returns evidence that each inbox was closed.
    pub(crate) fn close<R: Wait>(&self, rt: &R) -> AllShut
        requires own { AreOwn self.now.inboxes.items }
        ensures shut { result.inboxes ≡ length self.now.inboxes.items }
    {
        let home = Home(());
        let mut shut = AllShut::none();
        for inbox in &self.inboxes {
            shut = shut.and(inbox.close(rt, home));
        }
        shut
    }
}

/// Returns `generals` empty inboxes, one for each general, ascending.
///
/// # Errors
///
/// `AllocError` if an allocation fails.
fn empty_inboxes(alloc: Global, generals: u8) -> Result<Vec<Inbox>, AllocError>
    ensures count { IfOk result (λ inboxes. length inboxes.items ≡ generals) }
    ensures own { IfOk result (λ inboxes. AreOwn inboxes.items) }
{
    let mut inboxes = Vec::with_capacity(alloc, usize::from(generals))?;
    for general in 0..generals {
        inboxes.push(Inbox::new(u32::from(general)))?;
    }
    Ok(inboxes)
}
