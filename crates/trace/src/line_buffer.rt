//! Collects lines in a buffer, so that they are written to a sink together.
ghost use Rattle.std.specs.Prelude.{◌≡◌, IsFalse, ◌+◌, ◌*◌, ◌≤◌, ◌++◌, ◌∷◌, ◌<◌, [], length, map, replicate, take, decimal};
ghost use Rattle.trace.specs.Text.{further, place};
ghost use Rattle.trace.specs.Lines.{repeated};

use itoa::write_digits;
use std::marker::Model;

/// A buffer of at most 1,024 bytes for the lines of an outbox. The line for one label takes at most 158 bytes: its rank
/// and each of its at most 13 orders take at most 11 bytes.
#[derive(Drop)]
pub struct LineBuffer {
    bytes: [u8; 1024],
    /// The number of bytes in use.
    count: usize,
}

impl Model for LineBuffer {
    ghost use Rattle.std.specs.Prelude.{◌≡◌, ◌≤◌, ℕ, List, length, take};

    ghost Value = { List ℕ };

    ghost view = { λ l. take l.count l.bytes };

    ghost invariant = { λ l. (length l.bytes ≡ 1024) × (l.count ≤ 1024) };
}

impl LineBuffer {
    /// Returns an empty buffer.
    pub fn new() -> LineBuffer
        ensures { result ≡ [] }
    {
        LineBuffer {
            bytes: [0; 1024],
            count: 0,
        }
    }

    /// Empties the buffer.
    pub fn clear(&mut self)
        ensures { self.new ≡ [] }
    {
        self.count = 0;
    }

    /// Appends a piece of text, for which there must be room.
    pub fn add(&mut self, piece: &[u8])
        requires { length self.old + length piece.now ≤ 1024 }
        ensures { self.new ≡ self.old ++ piece.now }
    {
        self.count = with_piece(&mut self.bytes, self.count, piece);
    }

    /// Appends a space and a number in decimal. There must be room for 11 bytes.
    pub fn add_number(&mut self, number: u32)
        requires { length self.old + 11 ≤ 1024 }
        ensures added { self.new ≡ self.old ++ 32 ∷ decimal number }
        ensures short { length self.new ≤ length self.old + 11 }
    {
        self.count = with_number(&mut self.bytes, self.count, number);
    }

    /// Appends the orders that were sent to the receivers of a label, each after a space. A dash means that none was
    /// sent to this receiver. There must be room for 11 bytes for each.
    pub fn add_orders(&mut self, orders: &[Option<u32>])
        requires { length self.old + 11 * length orders.now ≤ 1024 }
        ensures added { self.new ≡ self.old ++ further (map place orders.now) }
        ensures short { length self.new ≤ length self.old + 11 * length orders.now }
    {
        let mut count = self.count;
        for order in orders {
            count = with_place(&mut self.bytes, count, *order);
        }
        self.count = count;
    }

    /// Appends a space and the order, `times` times, for a label of which each receiver was sent the same. A dash means
    /// that none was sent. There must be room for 11 bytes each time.
    pub fn add_alike(&mut self, order: Option<u32>, times: u32)
        requires { length self.old + 11 * times ≤ 1024 }
        ensures added { self.new ≡ self.old ++ further (map place (replicate times order)) }
        ensures short { length self.new ≤ length self.old + 11 * times }
    {
        self.count = with_alike(&mut self.bytes, self.count, order, times);
    }

    /// Returns whether fewer than 158 bytes are free. Otherwise there is room for another label's line.
    pub fn is_full(&self) -> bool
        ensures { IsFalse result → length self.now + 158 ≤ 1024 }
    {
        self.count > 1024 - 158
    }

    /// Returns the bytes in the buffer.
    pub fn as_slice(&self) -> &[u8]
        ensures { result.now ≡ self.now }
    {
        &self.bytes[..self.count]
    }
}

/// Writes a piece of text after the first `count` bytes, and returns the new number of bytes.
fn with_piece(bytes: &mut [u8], count: usize, piece: &[u8]) -> usize
    requires { count + length piece.now ≤ length bytes.old }
    ensures count { result ≡ count + length piece.now }
    ensures bytes { take result bytes.new ≡ take count bytes.old ++ piece.now }
{
    let end = count + piece.len();
    bytes[count..end].copy_from_slice(piece);
    end
}

/// Writes a space and the character `sign` after the first `count` bytes, and returns the new number of bytes.
fn with_sign(bytes: &mut [u8], count: usize, sign: u8) -> usize
    requires { count + 2 ≤ length bytes.old }
    ensures count { result ≡ count + 2 }
    ensures bytes { take result bytes.new ≡ take count bytes.old ++ 32 ∷ sign ∷ [] }
{
    bytes[count] = b' ';
    bytes[count + 1] = sign;
    count + 2
}

/// Writes a space and the character `sign`, `times` times, after the first `count` bytes. Returns the new number of
/// bytes.
fn with_signs(bytes: &mut [u8], count: usize, sign: u8, times: u32) -> usize
    requires { count + 11 * times ≤ length bytes.old }
    ensures count { result ≤ count + 11 * times }
    ensures bytes { take result bytes.new ≡ take count bytes.old ++ repeated times (32 ∷ sign ∷ []) }
{
    let mut end = count;
    for time in 0..times {
        end = with_sign(bytes, end, sign);
    }
    end
}

/// Writes a piece of at most 11 bytes, `times` times, after the first `count` bytes. Returns the new number of bytes.
fn with_copies(bytes: &mut [u8], count: usize, piece: &[u8], times: u32) -> usize
    requires room { count + 11 * times ≤ length bytes.old }
    requires short { length piece.now ≤ 11 }
    ensures count { result ≤ count + 11 * times }
    ensures bytes { take result bytes.new ≡ take count bytes.old ++ repeated times piece.now }
{
    let mut end = count;
    for time in 0..times {
        end = with_piece(bytes, end, piece);
    }
    end
}

/// Writes a space and a number in decimal, `times` times, after the first `count` bytes. Returns the new number of
/// bytes.
fn with_digits(bytes: &mut [u8], count: usize, number: u32, times: u32) -> usize
    requires { count + 11 * times ≤ length bytes.old }
    ensures count { result ≤ count + 11 * times }
    ensures bytes { take result bytes.new ≡ take count bytes.old ++ repeated times (32 ∷ decimal number) }
{
    let mut digits = [b' '; 21];
    let start = write_digits(number as u64, &mut digits, 21);
    digits[start - 1] = b' ';
    with_copies(bytes, count, &digits[start - 1..], times)
}

/// Writes a digit (0 to 9) after the first `count` bytes, and returns `count` + 1.
fn with_digit(bytes: &mut [u8], count: usize, digit: u32) -> usize
    requires room { count < length bytes.old }
    requires digit { digit < 10 }
    ensures count { result ≡ count + 1 }
    ensures bytes { take result bytes.new ≡ take count bytes.old ++ (48 + digit) ∷ [] }
{
    bytes[count] = b'0' + digit as u8;
    count + 1
}

/// Writes a space and a number (0 to 99) in decimal after the first `count` bytes. Returns the new number of bytes.
fn with_two(bytes: &mut [u8], count: usize, number: u32) -> usize
    requires room { count + 3 ≤ length bytes.old }
    requires number { number < 100 }
    ensures count { result ≤ count + 3 }
    ensures bytes { take result bytes.new ≡ take count bytes.old ++ 32 ∷ decimal number }
{
    if number < 10 {
        with_sign(bytes, count, b'0' + number as u8)
    } else {
        let end = with_sign(bytes, count, b'0' + (number / 10) as u8);
        with_digit(bytes, end, number % 10)
    }
}

/// Writes a space and a number in decimal after the first `count` bytes. Returns the new number of bytes.
fn with_number(bytes: &mut [u8], count: usize, number: u32) -> usize
    requires { count + 11 ≤ length bytes.old }
    ensures count { result ≤ count + 11 }
    ensures bytes { take result bytes.new ≡ take count bytes.old ++ 32 ∷ decimal number }
{
    if number < 100 {
        with_two(bytes, count, number)
    } else if number < 1000 {
        let end = with_two(bytes, count, number / 10);
        with_digit(bytes, end, number % 10)
    } else {
        with_digits(bytes, count, number, 1)
    }
}

/// Writes a space and an order, or a dash for no order, after the first `count` bytes. Returns the new number of bytes.
fn with_place(bytes: &mut [u8], count: usize, order: Option<u32>) -> usize
    requires { count + 11 ≤ length bytes.old }
    ensures count { result ≤ count + 11 }
    ensures bytes { take result bytes.new ≡ take count bytes.old ++ 32 ∷ place order }
{
    match order {
        Some(order) => with_number(bytes, count, order),
        None => with_sign(bytes, count, b'-'),
    }
}

/// Writes a space and an order, or a dash for no order, `times` times, after the first `count` bytes. Returns the new
/// number of bytes.
fn with_alike(bytes: &mut [u8], count: usize, order: Option<u32>, times: u32) -> usize
    requires { count + 11 * times ≤ length bytes.old }
    ensures count { result ≤ count + 11 * times }
    ensures bytes { take result bytes.new ≡ take count bytes.old ++ repeated times (32 ∷ place order) }
{
    match order {
        None => with_signs(bytes, count, b'-', times),
        Some(order) if order < 10 => with_signs(bytes, count, b'0' + order as u8, times),
        Some(order) => with_digits(bytes, count, order, times),
    }
}
