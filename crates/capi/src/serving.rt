//! Answers a program's requests with the board of a C program. No ledger is written.
ghost use Rattle.std.specs.Prelude.{◌≡◌, true, IfOk, OnOk, OnErr};
ghost use Rattle.semantics.specs.Call.{fits};
ghost use Rattle.semantics.specs.Replies.{words_in};
ghost use Rattle.board.specs.Board.{reply, next};

use crate::words::{answer, change};
use board::recall_board;
use semantics::{Reply, Request};
use std::alloc::{AllocError, Global};

/// Answers a request with a board that has these words, and changes the words as the request asks. Fails with
/// `AllocError` if memory runs out, and then leaves the words unchanged.
pub fn serve(alloc: Global, words: &mut [u64; 64], request: Request) -> Result<Reply, AllocError>
    ensures answer { IfOk result (λ r. words_in r ≡ reply words.old request) }
    ensures fits { IfOk result (λ r. fits request (words_in r) ≡ true) }
    ensures words { OnOk result (words.new ≡ next words.old request) }
    ensures unserved { OnErr result (words.new ≡ words.old) }
{
    request.recall();
    recall_board(words);
    let reply = answer(alloc, words, request)?;
    change(words, request);
    Ok(reply)
}
