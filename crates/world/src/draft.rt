//! Defines the draft of a general's letter. When a round is closed, all drafts are made before any letter, since only
//! drafts need memory that could be lacking.
use board::Access;
use round::Letter;
use std::marker::Model;

/// The accesses of one general in a round. Contracts see it as a list of accesses.
#[derive(Drop)]
pub struct Transcript {
    pub accesses: Vec<Access>,
}

impl Model for Transcript {
    ghost use Rattle.std.specs.Prelude.{List};
    ghost use Rattle.board.specs.Board.{Access as Entry};

    ghost Value = { List Entry };

    ghost view = { λ t. t.accesses.items };
}

/// A draft of a general's letter: whatever in the letter needs newly allocated memory.
#[derive(Drop)]
pub enum LetterDraft {
    /// A traitor's accesses. The other contents of his letter are in his activation.
    Begun(Transcript),
    /// A loyal general's complete letter.
    Whole(Letter),
    /// There is no letter: a loyal general has not posted, or the draft was moved out.
    Missing,
}
