//! Tests of the outbox, in which a program writes the orders that its general sends.

use outbox::{Outbox, Shape};
use std::alloc::Global;

/// Checks that the outbox has no order at first. Checks that `sway` sets the order for receivers 1 and 2 of label 0,
/// but not for the commander, 0.
fn sways(outbox: &mut Outbox) -> bool {
    outbox.get(0, 1).is_none()
        && outbox.sway(1, 0) == 1
        && outbox.sway(2, 0) == 1
        && outbox.sway(0, 9) == 0
        && outbox.get(0, 1) == Some(0)
}

/// Checks that `put` and `put_row` set orders only for labels that the general relays, and only for generals to whom he
/// relays them.
fn puts(outbox: &mut Outbox) -> bool {
    outbox.put(0, 2, 7)
        && !outbox.put(0, 3, 7)
        && !outbox.put(1, 2, 7)
        && outbox.get(0, 2) == Some(7)
        && outbox.put_row(0, &[5, 6, 8]) == 2
        && outbox.get(0, 2) == Some(6)
}

/// Checks that `honest` sends general 1 the order that the general received, which is 256 in the context.
fn is_honest(outbox: &mut Outbox) -> bool {
    let mut context = [0; 4096];
    context[33] = 1;
    outbox.honest(&context, 1) == 1 && outbox.get(0, 1) == Some(256)
}

/// Checks that general 3 of four can send orders to generals 1 and 2 in round 2, in which he relays label 0.
fn relays(alloc: Global) -> bool {
    let shape = Shape {
        generals: 4,
        commander: 0,
        general: 3,
        round: 2,
    };
    match Outbox::new(alloc, shape) {
        Ok(mut outbox) => {
            sways(&mut outbox)
                && puts(&mut outbox)
                && is_honest(&mut outbox)
                && outbox.shape().round == 2
        }
        Err(_) => false,
    }
}

#[test]
fn relays_one_label(rt: HostRuntime) {
    assert!(rt; relays(rt.alloc()));
}

/// Checks that general 3 of four can send no order in round 1, in which only the commander sends.
fn is_silent(alloc: Global) -> bool {
    let shape = Shape {
        generals: 4,
        commander: 0,
        general: 3,
        round: 1,
    };
    match Outbox::new(alloc, shape) {
        Ok(mut outbox) => outbox.sway(1, 0) == 0 && outbox.get(0, 1).is_none(),
        Err(_) => false,
    }
}

/// Checks that a lieutenant can send no order in round 1, in which only the commander sends.
#[test]
fn relays_nothing(rt: HostRuntime) {
    assert!(rt; is_silent(rt.alloc()));
}

/// Checks that general 2 can pass on his first chain, to general 1, and can send nothing else.
fn passes_one(outbox: &mut Outbox) -> bool {
    outbox.pass(0, 2)
        && !outbox.pass(1, 2)
        && !outbox.pass(2, 2)
        && !outbox.sign(1, 2)
        && outbox.sway(1, 0) == 0
        && outbox.entries().len() == 1
}

/// Checks what general 2 of three can send with signed messages. He has two chains: one that only the commander has
/// signed, and one that he has signed himself.
fn enters(alloc: Global) -> bool {
    let shape = Shape {
        generals: 3,
        commander: 0,
        general: 2,
        round: 2,
    };
    match Outbox::signed(alloc, shape, &[1, 5]) {
        Ok(mut outbox) => passes_one(&mut outbox),
        Err(_) => false,
    }
}

/// Checks what general 2 of three can send with signed messages. He has two chains: one that only the commander has
/// signed, and one that he has signed himself. He can pass on the first but not the second, and can sign no order of
/// his own.
#[test]
fn enters_what_can_be_sent(rt: HostRuntime) {
    assert!(rt; enters(rt.alloc()));
}
