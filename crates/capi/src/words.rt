//! Computes a board's reply to a request, and changes the words of the board.
ghost use Rattle.std.specs.Prelude.{◌≡◌, ◌+◌, ◌≤◌, IfOk, take, drop};
ghost use Rattle.semantics.specs.Replies.{words_in};
ghost use Rattle.board.specs.Board.{reply, next};
ghost use Rattle.board.specs.Requests.{IsReplyTo};

use semantics::{Copied, Reply, Request};
use std::alloc::{AllocError, Global};

/// Returns the reply of a board with these words to a request, without changing the words. Fails with `AllocError` if
/// memory runs out.
pub fn answer(alloc: Global, words: &[u64; 64], request: Request) -> Result<Reply, AllocError>
    ensures words { IfOk result (λ r. words_in r ≡ reply words.now request) }
    ensures form { IfOk result (λ r. IsReplyTo request r) }
{
    match &request {
        Request::Get { slot } => Ok(Reply::Word(words[slot.number()])),
        Request::Swap { slot, .. } => Ok(Reply::Word(words[slot.number()])),
        Request::Add { slot, .. } => Ok(Reply::Word(words[slot.number()])),
        Request::Cas { slot, .. } => Ok(Reply::Word(words[slot.number()])),
        Request::Copy { span } => Ok(Reply::Words(copied(
            alloc,
            words,
            span.slot(),
            span.count(),
        )?)),
    }
}

/// Returns a copy of `count` words of the board, from the word with number `slot` on. Fails with `AllocError` if memory
/// runs out.
fn copied(alloc: Global, words: &[u64; 64], slot: usize, count: usize) -> Result<Copied, AllocError>
    requires { slot + count ≤ 64 }
    ensures { IfOk result (λ c. c ≡ take count (drop slot words.now)) }
{
    let copy = Vec::from_slice(alloc, &words[slot..slot + count])?;
    let Some(copy) = Copied::new(copy) else {
        unreachable!()
    };
    Ok(copy)
}

/// Changes the words of the board as the request asks. Reading and copying change nothing.
pub fn change(words: &mut [u64; 64], request: Request)
    ensures { words.new ≡ next words.old request }
{
    match &request {
        Request::Get { .. } | Request::Copy { .. } => {}
        Request::Swap { slot, value } => words[slot.number()] = *value,
        Request::Add { slot, value } => {
            let number = slot.number();
            words[number] = words[number].wrapping_add(*value);
        }
        Request::Cas {
            slot,
            expected,
            new,
        } => {
            let number = slot.number();
            if words[number] == *expected {
                words[number] = *new;
            }
        }
    }
}
