//! Defines how a state of an exploration stores its world.
use crate::open_round::OpenRound;
use crate::shared_scenario::SharedScenario;

/// How a state stores its world: not at all between rounds, or as an open round.
#[derive(Drop)]
pub(crate) enum Stage {
    /// A round of this scenario has just begun, or the last one is closed. To save memory, the world is not stored, but
    /// played again from the start when it is needed.
    Begun(SharedScenario),
    /// A round is open and some of its accesses are made, or it was opened to make the next one.
    Open(OpenRound),
}
