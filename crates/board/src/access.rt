//! Defines an access to the board: who made which request in which round, and the board's reply.
ghost use Rattle.std.specs.Prelude.{◌≡◌, ◌↔◌, IfOk, IsTrue};
ghost use Rattle.semantics.specs.Replies.{words_in};
ghost use Rattle.board.specs.Requests.{IsReplyTo};

use crate::equality::same_reply;
use semantics::{Copied, Reply, Request};
use std::alloc::{AllocError, Global};
use std::marker::Model;

/// One access to the board: the general, the round, his request, and the board's reply to it.
#[derive(Drop)]
pub struct Access {
    /// The general's number.
    pub general: u32,
    /// The round, counted from 1.
    pub round: u32,
    /// The general's request.
    pub request: Request,
    /// The board's reply: the copied words for a copy request, and one word for any other request.
    pub reply: Reply,
}

impl Model for Access {
    ghost use Rattle.board.specs.Board.{Access as Entry};
    ghost use Rattle.board.specs.Requests.{IsReplyTo};
    ghost use Rattle.semantics.specs.Replies.{words_in};

    ghost Value = { Entry };

    ghost view = { λ a. record {
      general = a.general;
      round = a.round;
      request = a.request;
      reply = words_in a.reply;
    } };

    ghost invariant = { λ a. IsReplyTo a.request a.reply };
}

impl Access {
    /// Returns the board's reply.
    pub fn reply(&self) -> &Reply
        ensures words { words_in result.now ≡ self.now.reply }
        ensures form { IsReplyTo self.now.request result.now }
    {
        &self.reply
    }

    /// Returns a copy of the access.
    ///
    /// # Errors
    ///
    /// Fails with `AllocError` if there is no memory for the words of a copy request's reply.
    pub fn copy(&self, alloc: Global) -> Result<Access, AllocError>
        ensures { IfOk result (λ access. access ≡ self.now) }
    {
        Ok(Access {
            general: self.general,
            round: self.round,
            request: self.request,
            reply: copied(alloc, &self.reply)?,
        })
    }

    /// Checks whether two accesses are equal: the same general, round, request and words of the reply.
    pub fn same(&self, other: &Access) -> bool
        ensures { IsTrue result ↔ (self.now ≡ other.now) }
    {
        self.general == other.general
            && self.round == other.round
            && self.request.same(&other.request)
            && same_reply(&self.reply, &other.reply)
    }
}

/// Returns a copy of a reply. Fails with `AllocError` if memory runs out.
fn copied(alloc: Global, reply: &Reply) -> Result<Reply, AllocError>
    ensures { IfOk result (λ copy. copy ≡ reply.now) }
{
    match reply {
        Reply::Word(word) => Ok(Reply::Word(*word)),
        Reply::Words(words) => {
            let _few = words.as_slice();
            let Some(copy) = Copied::new(Vec::from_slice(alloc, words.as_slice())?) else {
                unreachable!()
            };
            Ok(Reply::Words(copy))
        }
    }
}
