//! Stops: the kinds of bytes at which texts are cut.
ghost use Rattle.std.specs.Prelude.{◌≡◌};
ghost use Rattle.text.specs.Stop.{is_stop};

/// A kind of byte at which a text is cut.
#[derive(Clone, Copy)]
pub enum Stop {
    /// Exactly this byte.
    Byte(u8),
    /// A space or a tab.
    Blank,
    /// Any byte except a space and a tab.
    Solid,
    /// The sign `+` or `-`.
    Sign,
}

/// The space, at which a word ends.
pub const SPACE: Stop = Stop::Byte(b' ');

/// The line feed, at which a line ends.
pub const FEED: Stop = Stop::Byte(b'\n');

/// The dot, which separates numbers.
pub const DOT: Stop = Stop::Byte(b'.');

/// Checks whether a byte is of the kind that `stop` names, so that a text is cut there.
pub fn stops(stop: Stop, byte: u8) -> bool
    ensures { result ≡ is_stop stop byte }
{
    match stop {
        Stop::Byte(end) => byte == end,
        Stop::Blank => byte == b' ' || byte == b'\t',
        Stop::Solid => !(byte == b' ' || byte == b'\t'),
        Stop::Sign => byte == b'+' || byte == b'-',
    }
}
