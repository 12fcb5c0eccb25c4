//! The items of a table of tests. An item is a line that begins with a key, with the text below it.
use std::alloc::{AllocError, Global};

/// The key of an item, which says what the item describes: a file of the row, a call, or what the answer to the call
/// must be.
#[derive(Clone, Copy, PartialEq, Eq)]
pub enum ItemKey {
    /// A row with this name begins.
    Row,
    /// The row has a file with this name. Its content is the text below, or a copy of another file.
    File,
    /// These bytes, in hexadecimal digits, are appended to the file that was described last.
    Hex,
    /// The text below replaces this line, counted from 1, of the file that was described last.
    Line,
    /// The file that was described last is cut after this number of bytes.
    Cut,
    /// The file that was described last loses its last byte, the line feed at its end.
    Unended,
    /// A file with this name can be opened, but not read.
    Unreadable,
    /// A call has these words, separated by blanks.
    Words,
    /// The call has this further word, which may contain blanks.
    Word,
    /// Each write to the call's standard output fails.
    Full,
    /// The call's standard output takes at most this number of bytes of each write, and cannot be flushed.
    Unflushed,
    /// The call is repeated for each length that is shorter than this file, with the file cut to this length. The
    /// expected answer is always the same.
    Beginnings,
    /// The call's exit status is this number.
    Status,
    /// The call's standard output is the text below, or the content of another file.
    Out,
    /// The call's standard error is the text below.
    Err,
    /// The call's standard output matches the pattern below.
    Like,
    /// The call's standard error matches the pattern below.
    Tells,
    /// The last line of the call's standard output matches this pattern.
    Last,
    /// At least one line of the call's standard output matches this pattern.
    Has,
    /// No line of the call's standard output matches this pattern.
    Lacks,
    /// Exactly this number of lines of the call's standard output match this pattern.
    Times,
    /// The call's standard output is a chronicle, and its lines of accesses in this round are the text below.
    Accesses,
    /// The call's standard output is, as JSON Lines, the chronicle in this file.
    Again,
    /// The call's standard output is kept as a file with this name, for later calls of the row.
    Keep,
}

/// The words that begin the items of a table, with their keys.
const KEYS: [(&str, ItemKey); 24] = [
    ("row", ItemKey::Row),
    ("file", ItemKey::File),
    ("hex", ItemKey::Hex),
    ("line", ItemKey::Line),
    ("cut", ItemKey::Cut),
    ("unended", ItemKey::Unended),
    ("unreadable", ItemKey::Unreadable),
    ("words", ItemKey::Words),
    ("word", ItemKey::Word),
    ("full", ItemKey::Full),
    ("unflushed", ItemKey::Unflushed),
    ("beginnings", ItemKey::Beginnings),
    ("status", ItemKey::Status),
    ("out", ItemKey::Out),
    ("err", ItemKey::Err),
    ("like", ItemKey::Like),
    ("tells", ItemKey::Tells),
    ("last", ItemKey::Last),
    ("has", ItemKey::Has),
    ("lacks", ItemKey::Lacks),
    ("times", ItemKey::Times),
    ("accesses", ItemKey::Accesses),
    ("again", ItemKey::Again),
    ("keep", ItemKey::Keep),
];

impl ItemKey {
    /// Returns the key that a word means in a table, such as `ItemKey::Row` for `row`. Returns `None` if it is not a
    /// key.
    pub fn named(word: &str) -> Option<ItemKey> {
        for (name, key) in &KEYS {
            if *name == word {
                return Some(*key);
            }
        }
        None
    }
}

/// An item of a table of tests: a line that begins with a key, with the text below it.
#[derive(Drop)]
pub struct Item {
    /// The key at the beginning of the line.
    pub key: ItemKey,
    /// The text of the line after its key.
    pub value: String,
    /// The text below the line.
    pub block: Vec<u8>,
}

impl Item {
    /// Returns the item with this key and value, and without a text below its line. Fails if memory runs out.
    pub fn of(alloc: Global, key: ItemKey, value: &str) -> Result<Item, AllocError> {
        Ok(Item {
            key,
            value: String::from_str(alloc, value)?,
            block: Vec::new(alloc),
        })
    }
}
