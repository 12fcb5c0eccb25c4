//! Defines a general's part in the open round.
ghost use Rattle.std.specs.Prelude.{◌≡◌};
ghost use Rattle.world.specs.Part.{owes_no_letter};

use round::Running;

/// What a general does in the open round: a traitor has an activation, and a loyal general has posted his letter or
/// not.
#[derive(Drop)]
pub enum Progress {
    /// A traitor with his activation.
    Acting(Running),
    /// A loyal general who has not posted his letter.
    Silent,
    /// A loyal general who has posted his letter.
    Posted,
}

impl Progress {
    /// Returns whether the round can be closed without missing this general's letter: he is a traitor, or he has
    /// posted.
    pub fn owes_no_letter(&self) -> bool
        ensures { result ≡ owes_no_letter self.now }
    {
        match self {
            Progress::Acting(_) | Progress::Posted => true,
            Progress::Silent => false,
        }
    }
}
