//! Makes calls that access the board and allocate memory.
use crate::hostile_calls::marks::{back, ready};
use crate::hostile_calls::outcome::{CallOutcome, led};
use anyhow::{Result, bail};
use board::{Access, Board};
use semantics::{Reply, Request, Slot, Span};
use std::alloc::{AllocError, Global};

/// The general who makes the requests.
const GENERAL: u32 = 3;

const ROUND: u32 = 1;

/// Returns six requests to the board, two of which copy words.
fn requests() -> Option<[Request; 6]> {
    let (Some(slot), Some(last)) = (Slot::new(0), Slot::new(63)) else {
        return None;
    };
    let (Some(all), Some(four)) = (Span::new(0, 64), Span::new(60, 4)) else {
        return None;
    };
    Some([
        Request::Swap { slot, value: 5 },
        Request::Copy { span: all },
        Request::Cas {
            slot,
            expected: 5,
            new: 7,
        },
        Request::Add {
            slot: last,
            value: u64::MAX,
        },
        Request::Copy { span: four },
        Request::Get { slot },
    ])
}

/// Calls `Board::apply` for six requests. If memory runs out for one of them, checks that the words and the ledger
/// are unchanged, and makes this request again.
pub fn applies<R: Print + AllocGlobal>(rt: &R) -> Result<CallOutcome> {
    let Some(requests) = requests() else {
        bail!("the requests");
    };
    let mut board = Board::new(rt.alloc(), [0; 64]);
    ready(rt);
    let served = serve(&mut board, requests.as_slice());
    back(rt);
    ended(rt.alloc(), served?, &board, requests.as_slice())
}

/// Compares a board's ledger with the one that results with enough memory, and returns the outcome of the calls.
fn ended(
    alloc: Global,
    is_refused: bool,
    board: &Board,
    requests: &[Request],
) -> Result<CallOutcome> {
    let first = ledger_bytes(alloc, board.ledger())?;
    let ample = ample(alloc, requests)?;
    led(is_refused, first.as_slice(), ample.as_slice())
}

/// Returns the ledger that results from these requests with enough memory, as bytes.
fn ample(alloc: Global, requests: &[Request]) -> Result<Vec<u8>> {
    let mut board = Board::new(alloc, [0; 64]);
    if serve(&mut board, requests)? {
        bail!("memory is refused");
    }
    Ok(ledger_bytes(alloc, board.ledger())?)
}

/// Makes these requests, and returns whether memory ran out for any of them.
fn serve(board: &mut Board, requests: &[Request]) -> Result<bool> {
    let mut is_refused = false;
    for request in requests {
        if is_served_again(board, request)? {
            is_refused = true;
        }
    }
    Ok(is_refused)
}

/// Makes a request, and returns whether memory ran out for it. If so, checks that the words and the ledger are
/// unchanged, and makes the request again.
fn is_served_again(board: &mut Board, request: &Request) -> Result<bool> {
    let words = *board.words();
    let entries = board.ledger().len();
    if board.apply(GENERAL, ROUND, *request).is_ok() {
        return Ok(false);
    }
    if *board.words() != words || board.ledger().len() != entries {
        bail!("a refused access changed the board");
    }
    if board.apply(GENERAL, ROUND, *request).is_err() {
        bail!("an access is refused twice");
    }
    Ok(true)
}

/// Returns the words of all replies in a ledger as bytes, little-endian.
fn ledger_bytes(alloc: Global, ledger: &[Access]) -> Result<Vec<u8>, AllocError> {
    let mut bytes = Vec::new(alloc);
    for access in ledger {
        push_reply(&mut bytes, access.reply())?;
    }
    Ok(bytes)
}

/// Appends the words of a reply as bytes, little-endian.
fn push_reply(bytes: &mut Vec<u8>, reply: &Reply) -> Result<(), AllocError> {
    match reply {
        Reply::Word(word) => bytes.extend_from_slice(&word.to_le_bytes()),
        Reply::Words(words) => push_words(bytes, words.as_slice()),
    }
}

/// Appends words as bytes, little-endian.
fn push_words(bytes: &mut Vec<u8>, words: &[u64]) -> Result<(), AllocError> {
    for word in words {
        bytes.extend_from_slice(&word.to_le_bytes())?;
    }
    Ok(())
}
