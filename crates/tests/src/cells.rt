//! Tests of loads and stores in the stack and the context.

use insn::Size;
use mem::{Context, MemoryFault, Stack, load, load_signed, store};
use semantics::{Region, Value};
use word::Narrow;

const FRAME: Value = Value::Pointer(Region::Stack, 0);

const START: Value = Value::Pointer(Region::Context, 0);

const NUMBER: Value = Value::Number(0xfedc_ba98_7654_3210);

/// Stores `NUMBER` at offset -8 of the stack and the frame pointer at offset -16. Returns whether both stores succeed.
fn is_filled(stack: &mut Stack) -> bool {
    store(stack, Size::Double, FRAME, -8, NUMBER).is_ok()
        && store(stack, Size::Double, FRAME, -16, FRAME).is_ok()
}

/// Loads with their expected results. Each row has the size, the base, the offset and the result. All bytes of the
/// context are 0x81.
const LOADS: &[(Size, Value, i16, Result<Value, MemoryFault>)] = &[
    (Size::Half, FRAME, -6, Ok(Value::Number(0x7654))),
    (Size::Double, FRAME, -16, Ok(FRAME)),
    (Size::Word, FRAME, -16, Err(MemoryFault::NoBytes)),
    (Size::Word, START, 4092, Ok(Value::Number(0x8181_8181))),
    (Size::Word, START, 4093, Err(MemoryFault::OutOfBounds)),
];

/// Checks whether each load in `LOADS` has its expected result.
fn load_so(stack: &Stack, context: &Context) -> bool {
    for &(size, base, distance, answer) in LOADS {
        if load(stack, context, size, base, distance) != answer {
            return false;
        }
    }
    true
}

/// Checks whether a signed load of the byte 0xfe at offset -1 of the stack extends its sign.
fn loads_a_sign(stack: &Stack, context: &Context) -> bool {
    let sign = load_signed(stack, context, Narrow::Byte, FRAME, -1);
    sign == Ok(Value::Number(0xffff_ffff_ffff_fffe))
}

/// Checks whether a store to the context fails with `ContextWrite`.
fn is_not_written(stack: &mut Stack) -> bool {
    store(stack, Size::Byte, START, 0, NUMBER) == Err(MemoryFault::ContextWrite)
}

#[test]
fn stores_and_loads(rt: HostRuntime) {
    let bytes = [0x81; Context::BYTES];
    let context = Context::new(&bytes);
    let mut stack = Stack::new();
    assert!(rt; is_filled(&mut stack));
    assert!(rt; load_so(&stack, &context) && loads_a_sign(&stack, &context));
    assert!(rt; is_not_written(&mut stack));
}

/// Checks whether `bytes` is accepted as a context, which then has these bytes.
fn is_context_of(bytes: &[u8]) -> bool {
    match Context::try_new(bytes) {
        Some(context) => context.bytes() == bytes,
        None => false,
    }
}

#[test]
fn a_context_has_4096_bytes(rt: HostRuntime) {
    let bytes = [0x81; Context::BYTES];
    assert!(rt; is_context_of(&bytes) && Context::try_new(&bytes[1..]).is_none());
}
