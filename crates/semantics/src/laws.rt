//! Laws of steps and runs. Each function does nothing, and its contract is the law.
ghost use Rattle.semantics.specs.Examples.{SomeArePlainAndSound};
ghost use Rattle.semantics.specs.Outbox.{FewPlacesAreSet, RangesAreKept, RelaysAreFew};
ghost use Rattle.semantics.specs.Laws.{EntriesAreFew, StepsAreCounted, StatesStayWhole, RunsStayOver, ReachedIsRun, SoundIsSafeAtEntry, ReachedIsSafe};

/// States that each step that does not trap adds one to the number of steps.
pub fn steps_are_counted()
    ensures { StepsAreCounted }
{}

/// States that every state of a run has eleven registers, 512 stack cells, and r10 at the end of the stack. If the
/// instructions are well-formed and the run is one of a campaign, every number in a state has at most 64 bits, and
/// every byte at most 8.
pub fn states_stay_whole()
    ensures { StatesStayWhole }
{}

/// States that a run that has exited, trapped or waits for an answer does not change with further steps.
pub fn runs_stay_over()
    ensures { RunsStayOver }
{}

/// States that a state that a run reaches is the result of running the program for the state's number of steps, with
/// the same answers of the board.
pub fn reached_is_run()
    ensures { ReachedIsRun }
{}

/// States that a program is sound exactly if its entry state is safe: from there it never traps, and it exits within as
/// many steps as it has instructions, whatever the board answers.
pub fn sound_is_safe_at_entry()
    ensures { SoundIsSafeAtEntry }
{}

/// States that every state that a sound program reaches is safe: from there it never traps, and it exits within the
/// remaining steps. The state has taken fewer steps than the program has instructions.
pub fn reached_is_safe()
    ensures { ReachedIsSafe }
{}

/// States that three examples exist: a plain and sound program, a sound one that makes a request to the board, and one
/// that is neither plain nor sound. So neither definition is empty or holds of every program.
pub fn some_are_plain_and_sound()
    ensures { SomeArePlainAndSound }
{}

/// States that a general relays at most 990 labels in a round.
pub fn relays_are_few()
    ensures { RelaysAreFew }
{}

/// States that `send` sets at most one order, `send_row` at most one for each order that it reads, and `sway` and
/// `honest` at most one for each label that the general relays.
pub fn few_places_are_set()
    ensures { FewPlacesAreSet }
{}

/// States that `send_row` returns at most 13, and `sway` and `honest` at most 1,016.
pub fn ranges_are_kept()
    ensures { RangesAreKept }
{}

/// States that a run makes at most 8 entries in an outbox, and that its general can send each of them. Without
/// signatures it makes no entry, and with signatures it sets no order.
pub fn entries_are_few()
    ensures { EntriesAreFew }
{}
