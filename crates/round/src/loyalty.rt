//! Makes the letters of loyal generals.
ghost use Rattle.std.specs.Prelude.{◌≡◌, [], length, IfOk};
ghost use Rattle.label.specs.Relay.{IsShape};
ghost use Rattle.semantics.specs.Relay.{Oral};
ghost use Rattle.round.specs.Contexts.{IsToldTo, shape_told, outbox_told, letter_told, faithful_letter_with, rows_told, tells_oral};

use crate::letter::Letter;
use crate::seat::Player;
use label::Shape;
use mem::layout::{AT_COMMANDER, AT_GENERALS};
use mem::number_told;
use outbox::Outbox;
use std::alloc::{AllocError, Global};

/// Returns a loyal general's letter of a round: he sends each receiver of each label the order that he took for it. His
/// context, which must be for this general and round, contains these orders.
///
/// The definition `faithful_letter` instead describes the letter by what he took in the earlier rounds. The law
/// `loyal_letters_follow` says that both letters are the same.
///
/// # Errors
///
/// Fails with `AllocError` if there is no memory for the outbox.
pub fn loyal_letter(
    alloc: Global,
    general: u32,
    round: u32,
    context: Vec<u8>,
) -> Result<Letter, AllocError>
    requires context { length context.items ≡ 4096 }
    requires own { IsToldTo general round context.items }
    requires shape { IsShape (shape_told general round context.items) }
    ensures { IfOk result (λ letter. letter ≡ letter_told general round context.items) }
{
    let shape = shape_told(general, round, context.as_slice());
    let outbox = faithful(alloc, shape, context.as_slice())?;
    Ok(loyal_letter_with(alloc, general, round, context, outbox))
}

/// Returns a loyal general's letter of a round, in which he sends what `outbox` contains. The context must be for this
/// general and round. In an oral campaign the outbox must have the orders in the context for all their receivers.
pub fn loyal_letter_with(
    alloc: Global,
    general: u32,
    round: u32,
    context: Vec<u8>,
    outbox: Outbox,
) -> Letter
    requires context { length context.items ≡ 4096 }
    requires own { IsToldTo general round context.items }
    requires shape { outbox.relay.shape ≡ shape_told general round context.items }
    requires kind { tells_oral context.items → outbox.relay.kind ≡ Oral }
    requires rows { outbox.rows ≡ rows_told outbox.relay context.items }
    requires entries { tells_oral context.items → outbox.entries ≡ [] }
    ensures { result ≡ faithful_letter_with general round context.items outbox }
{
    Letter {
        general,
        round,
        context,
        program: Player::new(None),
        transcript: Vec::new(alloc),
        steps: 0,
        outbox,
        exited: true,
    }
}

/// Returns the outbox of a loyal general. It sends each receiver of each label the order in `context` that the general
/// took for this label. `shape` says which labels and receivers these are. Fails with `AllocError` if there is no
/// memory for the outbox.
fn faithful(alloc: Global, shape: Shape, context: &[u8]) -> Result<Outbox, AllocError>
    requires shape { IsShape shape }
    requires context { length context.now ≡ 4096 }
    ensures { IfOk result (λ outbox. outbox ≡ outbox_told shape context.now) }
{
    let mut outbox = Outbox::new(alloc, shape)?;
    outbox.honest_to_all(context);
    Ok(outbox)
}

/// Returns which labels this general relays in this round, and to whom, in the campaign that his context describes.
pub fn shape_told(general: u32, round: u32, context: &[u8]) -> Shape
    requires { length context.now ≡ 4096 }
    ensures { result ≡ shape_told general round context.now }
{
    Shape {
        generals: number_told(context, AT_GENERALS),
        commander: number_told(context, AT_COMMANDER),
        general,
        round,
    }
}
