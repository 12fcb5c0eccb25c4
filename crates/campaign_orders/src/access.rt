//! Makes the next access of an activation, on a copy of it.
ghost use Rattle.std.specs.Prelude.{◌≡◌, IfOk, Some, length};
ghost use Rattle.campaign_orders.specs.OpenRounds.{IsPartAfter};
ghost use Rattle.world.specs.declared.part.Progress.TheVariants.{Acting};

use crate::accessed::Accessed;
use board::Board;
use round::Running;
use std::alloc::{AllocError, Global};

/// Returns how many instructions the program of an activation has.
fn instructions_of(running: &Running) -> u32
    ensures { result ≡ length running.now.program }
{
    running.program().program().len() as u32
}

/// Returns a copy of the general's activation after his next access, to a board with these words, and the board's words
/// after it. The copy has been run on to its next request or its end. Returns `None` if he makes no further access.
/// Fails with `AllocError` if it runs out of memory.
pub(crate) fn next_access(
    alloc: Global,
    running: &Running,
    words: &[u64; 64],
    general: u32,
) -> Result<Option<Accessed>, AllocError>
    ensures { IfOk result (λ made. IsPartAfter general words.now (Some (Acting running.now)) made) }
{
    if running.has_ended() {
        return Ok(None);
    }
    let most = instructions_of(running);
    let mut copy = running.copy(alloc)?;
    copy.ahead(most);
    if copy.has_ended() {
        return Ok(None);
    }
    // The round's number would matter only in the ledger, and the ledger of this board is dropped.
    let mut board = Board::new(alloc, *words);
    copy.turn(&mut board, general, 1)?;
    copy.ahead(most);
    Ok(Some(Accessed {
        running: copy,
        words: *board.words(),
    }))
}
