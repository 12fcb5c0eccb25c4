//! Defines the collector: the permission to take letters out of a post.
use crate::knowledge::Known;
use crossbeam_queue::Pass;
use round::Letter;
use std::marker::Model;

/// The permission to take letters out of a post. It takes no memory, and each post has exactly one collector.
#[derive(Drop)]
pub struct Collector {
    pub(crate) pass: Pass<Letter, Known>,
}

impl Model for Collector {
    ghost use Rattle.std.specs.Prelude.{◌≡◌, [], true};
    ghost use Rattle.threads.specs.Seen.{CollectorSeen};

    ghost Value = { CollectorSeen };

    ghost view = { λ c. record {
      table = c.pass.table_id;
      taken = c.pass.me.0.client.letters;
      generals = c.pass.me.0.client.made;
    } };

    ghost invariant = { λ c. (c.pass.me.1 ≡ []) × (c.pass.me.0.client.takes ≡ true) × (c.pass.me.0.client.back ≡ []) };
}
