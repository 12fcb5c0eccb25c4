//! The outcome of a run, in the form that C receives.
/// The outcome of a program's run.
#[repr(C)]
#[derive(Clone, Copy, Drop)]
pub struct RunOutcome {
    /// The value of register r0 with which the program exited.
    pub r0: u64,
    /// How many steps the run took. There are at most as many as the program has instructions.
    pub steps: u32,
}
