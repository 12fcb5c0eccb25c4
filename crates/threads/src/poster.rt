//! Defines the poster: one general's permission to post letters.
use crate::knowledge::Known;
use crossbeam_queue::Pass;
use round::Letter;
use std::marker::Model;

/// One general's permission to post letters. It takes no memory, and a post has exactly one for each general.
#[derive(Drop)]
pub struct Poster {
    pub(crate) pass: Pass<Letter, Known>,
}

impl Model for Poster {
    ghost use Rattle.std.specs.Prelude.{◌≡◌, [], true};
    ghost use Rattle.threads.specs.Seen.{PosterSeen};

    ghost Value = { PosterSeen };

    ghost view = { λ p. record {
      table = p.pass.table_id;
      general = p.pass.me.0.client.general;
      posted = p.pass.me.0.client.letters;
    } };

    ghost invariant = { λ p. (p.pass.me.1 ≡ []) × (p.pass.me.0.client.posts ≡ true) };
}
