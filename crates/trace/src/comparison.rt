//! Compares a text with another one while the other is being written.
ghost use Rattle.std.specs.Prelude.{◌≡◌, ◌≢◌, ◌<◌, ◌≤◌, ◌+◌, true, false, IfNone, IfSome, None, is_some, length, slice_get, take};
ghost use Rattle.std.specs.Int.{to_le_bytes, w64};
ghost use Rattle.trace.specs.Compared.{eight};

use crate::sink::Sink;

/// A sink that compares the bytes it receives with `text`, and remembers the first difference.
#[derive(Drop)]
pub struct ComparingSink<'a> {
    text: &'a [u8],
    /// How many of the first received bytes are the same as in `text`.
    same: usize,
    /// The first received byte that differs from `text` or comes after its end, or `None` if there is no such byte yet.
    other: Option<u8>,
    /// Whether the sink has rejected bytes. It does so once a received byte differs from `text`.
    failed: bool,
    ghost within: { same ≤ length text.now },
    ghost differs: { slice_get text.now same ≡ other → other ≡ None },
    ghost refused: { failed ≡ true → is_some other ≡ true },
}

impl<'a> ComparingSink<'a> {
    /// Returns a sink that will compare the bytes it receives with `text`.
    pub fn new(text: &'a [u8]) -> ComparingSink<'a>
        ensures text { result.text.now ≡ text.now }
        ensures fresh { (result.same ≡ 0) × (result.other ≡ None) × (result.failed ≡ false) }
    {
        ComparingSink {
            text,
            same: 0,
            other: None,
            failed: false,
        }
    }

    /// Returns the byte offset at which the received bytes first differ from the text, or `None` if they are exactly
    /// the text. If they are only a beginning of the text, the offset is their number.
    pub fn difference(&self) -> Option<usize>
        ensures none { IfNone result ((self.now.other ≡ None) × (self.now.same ≡ length self.now.text.now)) }
        ensures some { IfSome result (λ place. (place ≡ self.now.same)
            × (self.now.other ≡ None → place < length self.now.text.now)) }
    {
        if self.other.is_none() && self.same == self.text.len() {
            None
        } else {
            Some(self.same)
        }
    }
}

impl<'a> Sink for ComparingSink<'a> {
    ghost use Rattle.trace.specs.Compared.{compared, taken};

    // Contracts see the text followed by the received bytes, which shows that the text does not change.
    ghost contents = { λ c. compared c.text.now (taken c.text.now c.same c.other) };

    ghost has_failed = { λ c. c.failed };

    fn put(&mut self, piece: &[u8]) -> Option<usize> {
        let Some(byte) = piece.first() else {
            return Some(0);
        };
        if self.other.is_some() {
            self.failed = true;
            return None;
        }
        let alike = alike(&self.text[self.same..], piece);
        if alike == 0 {
            self.other = Some(*byte);
            return Some(1);
        }
        self.same += alike;
        Some(alike)
    }

    fn failed(&self) -> bool {
        self.failed
    }
}

/// Returns the number of first bytes in which `text` and `piece` agree.
fn alike(text: &[u8], piece: &[u8]) -> usize
    ensures text { result ≤ length text.now }
    ensures piece { result ≤ length piece.now }
    ensures alike { take result text.now ≡ take result piece.now }
    ensures none { result ≡ 0 → 0 < length piece.now → slice_get text.now 0 ≢ slice_get piece.now 0 }
{
    let most = text.len().min(piece.len());
    for count in alike_words(text, piece)..most {
        if text[count] != piece[count] {
            return count;
        }
    }
    most
}

/// Returns a multiple of 8. In at least this number of first bytes, `text` and `piece` agree. It compares eight bytes
/// at a time, and stops at the first eight that differ.
fn alike_words(text: &[u8], piece: &[u8]) -> usize
    ensures text { result ≤ length text.now }
    ensures piece { result ≤ length piece.now }
    ensures alike { take result text.now ≡ take result piece.now }
{
    let words = text.len().min(piece.len()) / 8;
    for word in 0..words {
        let place = 8 * word;
        if word_at(text, place) != word_at(piece, place) {
            return place;
        }
    }
    8 * words
}

/// Returns the 64-bit number in the 8 bytes of `bytes` from index `place` on, in little-endian order.
fn word_at(bytes: &[u8], place: usize) -> u64
    requires { place + 8 ≤ length bytes.now }
    ensures { to_le_bytes w64 result ≡ eight place bytes.now }
{
    u64::from_le_bytes([
        bytes[place],
        bytes[place + 1],
        bytes[place + 2],
        bytes[place + 3],
        bytes[place + 4],
        bytes[place + 5],
        bytes[place + 6],
        bytes[place + 7],
    ])
}
