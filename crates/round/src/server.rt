//! Defines servers, which answer the requests of running programs.
ghost use Rattle.std.specs.Prelude.{◌≡◌, ◌++◌, ◌∷◌, [], true, List, IfOk, OnErr};
ghost use Rattle.semantics.specs.Call.{fits};
ghost use Rattle.semantics.specs.Replies.{words_in};
ghost use Rattle.board.specs.Board.{Access as Entry};
ghost use Rattle.board.specs.Requests.{IsReplyTo};

use board::Board;
use semantics::{Reply, Request};
use std::alloc::AllocError;

/// Answers the requests of running programs: a board, or one general's access to a board behind a lock.
///
/// A server's contract promises that a reply fits its request, and that each access is recorded in order. It does not
/// say which reply is given, or what other generals do to the board.
pub trait Server {
    /// The accesses that this server has served so far, in order. For a board it is the ledger.
    ghost served: { Self → List Entry };

    /// Answers a request of this general in this round, and returns the reply.
    ///
    /// # Errors
    ///
    /// Fails with `AllocError` if there is no memory for the access. Then nothing was served.
    fn serve(&mut self, general: u32, round: u32, request: Request) -> Result<Reply, AllocError>
        ensures fits { IfOk result (λ r. fits request (words_in r) ≡ true) }
        ensures form { IfOk result (λ r. IsReplyTo request r) }
        ensures entered { IfOk result (λ r. served self.new ≡ served self.old ++ record {
          general = general;
          round = round;
          request = request;
          reply = words_in r;
        } ∷ []) }
        ensures unserved { OnErr result (served self.new ≡ served self.old) };
}

impl Server for Board {
    ghost served = { λ board. board.ledger };

    fn serve(&mut self, general: u32, round: u32, request: Request) -> Result<Reply, AllocError> {
        self.apply(general, round, request)
    }
}
