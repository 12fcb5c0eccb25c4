//! Writes bytes and numbers to a sink. Once the sink has failed, further calls write nothing.
ghost use Rattle.std.specs.Prelude.{◌≡◌, ◌++◌, ◌∷◌, [], decimal};
ghost use Rattle.trace.specs.Sinks.{Wrote};

use crate::sink::Sink;
use itoa::write_digits;

/// Writes all bytes of `piece`, or as many as the sink accepts before it fails.
pub fn put_all<S: Sink>(sink: &mut S, piece: &[u8])
    ensures { Wrote (S.contents sink.old) (S.has_failed sink.old) piece.now (S.contents sink.new)
        (S.has_failed sink.new) }
{
    if sink.failed() {
        return;
    }
    let mut from = 0;
    while from < piece.len() {
        match sink.put(&piece[from..]) {
            Some(taken) => from += taken,
            None => return,
        }
    }
}

/// Writes the byte `sign` and then a number in decimal.
pub fn put_behind<S: Sink>(sink: &mut S, sign: u8, number: u64)
    ensures { Wrote (S.contents sink.old) (S.has_failed sink.old) (sign ∷ decimal number) (S.contents sink.new)
        (S.has_failed sink.new) }
{
    let mut digits = [sign; 21];
    let start = write_digits(number, &mut digits, 21);
    digits[start - 1] = sign;
    put_all(sink, &digits[start - 1..]);
}

/// Writes a space and a number in decimal.
pub fn put_next<S: Sink>(sink: &mut S, number: u64)
    ensures { Wrote (S.contents sink.old) (S.has_failed sink.old) (32 ∷ decimal number) (S.contents sink.new)
        (S.has_failed sink.new) }
{
    put_behind(sink, b' ', number);
}

/// Writes `head`, a space and a number in decimal.
pub fn put_headed<S: Sink>(sink: &mut S, head: &[u8], number: u64)
    ensures { Wrote (S.contents sink.old) (S.has_failed sink.old) (head.now ++ 32 ∷ decimal number)
        (S.contents sink.new) (S.has_failed sink.new) }
{
    put_all(sink, head);
    put_next(sink, number);
}
