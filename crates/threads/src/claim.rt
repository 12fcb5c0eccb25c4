//! Defines claims: statements that hold for each letter in a post.
use std::marker::Brand;

/// A statement about letters. It holds for each letter that a post accepts, and so for each letter that is taken out of
/// it. A function may be generic over a claim that no type of its signature names. If such a function is called with
/// `Brand` as the claim, the caller's proof chooses the statement.
pub trait Claim {
    ghost use Rattle.round.specs.Letters.{Letter};

    /// The statement about a letter.
    ghost holds: { Letter → Type 0 };
}

impl Claim for Brand {
    ghost holds = { λ _. Unit {0} };
}

/// The claim that holds for every letter.
pub struct AnyLetter;

impl Claim for AnyLetter {
    ghost holds = { λ _. Unit {0} };
}
