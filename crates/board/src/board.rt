//! Defines the board that traitors share, and how it replies to a request.
ghost use Rattle.std.specs.Prelude.{◌≡◌, ◌++◌, ◌∷◌, [], true, List, IfOk, OnOk, OnErr};
ghost use Rattle.semantics.specs.Call.{fits};
ghost use Rattle.semantics.specs.Replies.{words_in};
ghost use Rattle.board.specs.Board.{reply, next, IsLegal, words_after};
ghost use Rattle.board.specs.Requests.{IsReplyTo};

use crate::access::Access;
use crate::kept_facts::recall_board;
use crate::words;
use semantics::{Reply, Request};
use std::alloc::{AllocError, Global};
use std::marker::Model;

/// A board: 64 words of 64 bits, with the ledger, which lists all its accesses.
#[derive(Drop)]
pub struct Board {
    opening: [u64; 64],
    words: [u64; 64],
    ledger: Vec<Access>,
    alloc: Global,
}

impl Model for Board {
    ghost use Rattle.board.specs.Ledger.{RecordedBoard, IsRecorded};

    ghost Value = { RecordedBoard };

    ghost view = { λ b. record { opening = b.opening; words = b.words; ledger = b.ledger.items } };

    ghost invariant = { λ b. IsRecorded b.opening b.words b.ledger.items };
}

impl Board {
    /// Creates a board with the given words at the start and without accesses.
    pub fn new(alloc: Global, words: [u64; 64]) -> Board
        ensures opening { result.opening ≡ words }
        ensures words { result.words ≡ words }
        ensures ledger { result.ledger ≡ [] }
    {
        recall_board(&words);
        Board {
            opening: words,
            words,
            ledger: Vec::new(alloc),
            alloc,
        }
    }

    /// Replies to a general's request in a round, changes the words as the request asks, and appends the access to
    /// the ledger. Fails with `AllocError` if memory runs out, and then changes nothing.
    pub fn apply(&mut self, general: u32, round: u32, request: Request) -> Result<Reply, AllocError>
        ensures answer { IfOk result (λ r. words_in r ≡ reply self.old.words request) }
        ensures fits { IfOk result (λ r. fits request (words_in r) ≡ true) }
        ensures form { IfOk result (λ r. IsReplyTo request r) }
        ensures words { OnOk result (self.new.words ≡ next self.old.words request) }
        ensures entered { OnOk result
            (self.new.ledger ≡ self.old.ledger ++ record {
              general = general;
              round = round;
              request = request;
              reply = reply self.old.words request;
            } ∷ []) }
        ensures opening { self.new.opening ≡ self.old.opening }
        ensures unserved { OnErr result (self.new ≡ self.old) }
    {
        request.recall();
        let alloc = self.alloc;
        let reply = words::answer(alloc, &self.words, request)?;
        let entry = Access {
            general,
            round,
            request,
            reply: words::answer(alloc, &self.words, request)?,
        };
        self.ledger.push(entry)?;
        words::change(&mut self.words, request);
        Ok(reply)
    }

    /// Returns all accesses to the board, in the order in which it replied to them.
    pub fn ledger(&self) -> &[Access]
        ensures same { result.now ≡ self.now.ledger }
        ensures legal { IsLegal self.now.opening self.now.ledger }
    {
        self.ledger.as_slice()
    }

    /// Returns the words that the board had before its first access.
    pub fn opening(&self) -> &[u64; 64]
        ensures { result.now ≡ self.now.opening }
    {
        &self.opening
    }

    /// Returns the words that the board has now.
    pub fn words(&self) -> &[u64; 64]
        ensures same { result.now ≡ self.now.words }
        ensures left { self.now.words ≡ words_after self.now.opening self.now.ledger }
    {
        let Board { words, .. } = self;
        words
    }

    /// Consumes the board and returns all its accesses, in the order in which it replied to them.
    pub fn into_ledger(self) -> Vec<Access>
        ensures same { result.items ≡ self.ledger }
        ensures legal { IsLegal self.opening self.ledger }
    {
        let Board { ledger, .. } = self;
        ledger
    }
}
