//! Tests of the board, which traitors share, and of its ledger, which lists all accesses.

use board::Board;
use helper::{Reply, Request, Slot, Span};
use std::alloc::Global;

/// Checks whether the board answers a request of this general in this round with the word `expected`.
fn gets(board: &mut Board, general: u32, round: u32, request: Request, expected: u64) -> bool {
    match board.apply(general, round, request) {
        Ok(Reply::Word(word)) => word == expected,
        _ => false,
    }
}

/// Checks that the board answers five requests for a word correctly: each with the value that the word has before the
/// request.
fn serves(board: &mut Board, slot: Slot) -> bool {
    let wrong = Request::Cas {
        slot,
        expected: 4,
        new: 7,
    };
    let right = Request::Cas {
        slot,
        expected: 5,
        new: 9,
    };
    let less = Request::Add {
        slot,
        value: u64::MAX,
    };
    gets(board, 4, 1, Request::Swap { slot, value: 5 }, 0)
        && gets(board, 4, 1, wrong, 5)
        && gets(board, 0, 1, right, 5)
        && gets(board, 0, 1, less, 9)
        && gets(board, 0, 2, Request::Get { slot }, 8)
}

/// Checks that words 60 to 63, the last four, can be copied, and that a request for five words from word 60 on cannot
/// be made.
fn copies(board: &mut Board) -> bool {
    let Some(span) = Span::new(60, 4) else {
        return false;
    };
    Span::new(60, 5).is_none()
        && matches!(
            board.apply(0, 2, Request::Copy { span }),
            Ok(Reply::Words(_))
        )
}

/// Checks that a board of zeros answers six requests correctly and lists all six in its ledger.
fn serves_and_enters(alloc: Global) -> bool {
    let Some(slot) = Slot::new(0) else {
        return false;
    };
    let mut board = Board::new(alloc, [0; 64]);
    serves(&mut board, slot) && copies(&mut board) && board.ledger().len() == 6
}

#[test]
fn serves_and_enters_each_access(rt: HostRuntime) {
    assert!(rt; serves_and_enters(rt.alloc()));
}
