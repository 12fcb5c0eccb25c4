//! Reads the arguments of helper calls from registers. The callers must know that the values are ones that the helpers
//! accept.
ghost use Rattle.std.specs.Prelude.{◌≡◌, ◌<◌, ◌%◌, ◌^◌, IsOk, Ok};
ghost use Rattle.semantics.specs.State.{given};
ghost use Rattle.semantics.specs.Call.{below, pointer};

use semantics::Value;

/// Returns the number that `value` is. It must be a number below `bound`.
pub fn argument(value: Value, bound: u64) -> u64
    requires { IsOk (below bound value) }
    ensures same { below bound value ≡ Ok result }
    ensures below { result < bound }
{
    match value {
        Value::Number(number) => number,
        _ => unreachable!(),
    }
}

/// Returns the number that `value` is. It must be a number.
pub fn word(value: Value) -> u64
    requires { IsOk (below (2 ^ 64) value) }
    ensures { below (2 ^ 64) value ≡ Ok result }
{
    match value {
        Value::Number(number) => number,
        _ => unreachable!(),
    }
}

/// Returns the order that `value` is: the low 32 bits of a number. It must be a number.
pub fn order(value: Value) -> u32
    requires { IsOk (given (below (2 ^ 64) value) (λ word. Ok (word % 2 ^ 32))) }
    ensures { given (below (2 ^ 64) value) (λ word. Ok (word % 2 ^ 32)) ≡ Ok result }
{
    (word(value) % 0x1_0000_0000) as u32
}

/// Returns `value`, which must be a pointer.
pub fn pointer(value: Value) -> Value
    requires { IsOk (pointer value) }
    ensures { pointer value ≡ Ok result }
{
    value
}
