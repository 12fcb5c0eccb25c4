//! Posts a letter, and withholds its poster until the letter is counted.
ghost use Rattle.std.specs.Prelude.{◌≡◌, ◌++◌, ◌∷◌, [], IfOk, IfErr};

use crate::claim::Claim;
use crate::post::PostOf;
use crate::poster::Poster;
use crate::tally::returned_letter::{Returned, posted};
use round::Letter;
use std::sync::Wait;

/// A poster whose last letter was posted but is not counted yet. Only `send` creates one, and only `Count::add` returns
/// the poster.
#[derive(Drop)]
pub(crate) struct Uncounted {
    pub(super) poster: Poster,
}

/// Posts `letter` with its general's poster. Returns the poster as `Uncounted`, so that the letter must be counted
/// before another is posted. The claim `C` must hold for the letter.
///
/// # Errors
///
/// `Returned` if the post is full.
pub(crate) fn send<R: Wait, C: Claim>(
    rt: &R,
    post: &PostOf<C>,
    poster: Poster,
    letter: Letter,
) -> Result<Uncounted, Returned>
    requires post { poster.table ≡ post.now.table }
    requires general { letter.general ≡ poster.general }
    requires claim { C.holds letter }
    ensures post { IfOk result (λ uncounted. uncounted.poster.table ≡ poster.table) }
    ensures general { IfOk result (λ uncounted. uncounted.poster.general ≡ poster.general) }
    ensures posted { IfOk result (λ uncounted. uncounted.poster.posted ≡ poster.posted ++ letter ∷ []) }
    ensures back { IfErr result (λ returned. returned.general ≡ letter.general) }
{
    let (poster, sent) = post.post(rt, poster, letter);
    posted(sent)?;
    Ok(Uncounted { poster })
}
