//! Compares replies of the board.
ghost use Rattle.std.specs.Prelude.{◌≡◌, ◌↔◌, IsTrue};
ghost use Rattle.semantics.specs.Replies.{words_in};

use semantics::Reply;

/// Checks whether two replies have the same words. A reply of one word can equal a copy of one word.
pub(crate) fn same_reply(reply: &Reply, other: &Reply) -> bool
    ensures { IsTrue result ↔ (words_in reply.now ≡ words_in other.now) }
{
    match reply {
        Reply::Word(word) => match other {
            Reply::Word(w) => word == w,
            Reply::Words(ws) => ws.as_slice() == [*word].as_slice(),
        },
        Reply::Words(words) => match other {
            Reply::Word(w) => words.as_slice() == [*w].as_slice(),
            Reply::Words(ws) => words.as_slice() == ws.as_slice(),
        },
    }
}
