//! The board's replies to requests: one word, or the words of a copy.
ghost use Rattle.std.specs.Prelude.{◌≡◌, ◌≤◌, ◌↔◌, IfSome, IsSome, length};

use std::marker::Model;

/// The words that the board copied, 0 to 64. Contracts see them as a list.
#[derive(Drop)]
pub struct Copied {
    words: Vec<u64>,
}

impl Model for Copied {
    ghost use Rattle.std.specs.Prelude.{ℕ, ◌≤◌, List, length};

    ghost Value = { List ℕ };

    ghost view = { λ c. c.words.items };

    ghost invariant = { λ c. length c.words.items ≤ 64 };
}

impl Copied {
    /// Returns the words as the reply to a copy, or `None` if there are more than 64.
    pub fn new(words: Vec<u64>) -> Option<Copied>
        ensures same { IfSome result (λ c. c ≡ words.items) }
        ensures there { IsSome result ↔ (length words.items ≤ 64) }
    {
        if words.len() > 64 {
            return None;
        }
        Some(Copied { words })
    }

    /// Returns a reference to the words, in their order.
    pub fn as_slice(&self) -> &[u64]
        ensures same { result.now ≡ self.now }
        ensures few { length self.now ≤ 64 }
    {
        self.words.as_slice()
    }
}

/// The board's reply to a request.
#[derive(Drop)]
pub enum Reply {
    /// The word of the board before the request.
    Word(u64),
    /// The words that the request copied.
    Words(Copied),
}
