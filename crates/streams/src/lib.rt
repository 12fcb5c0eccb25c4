//! Reads whole files, with or without a limit, writes whole texts to streams, and displays file names and untrusted
//! text without control characters.
#![tactic(auto)]

mod bounded_read;
mod escaped;
mod filled_file;
mod interruption;
mod laws;
mod name;
mod output;
mod pending_flush;
mod pieces;
mod source;
mod texts;
mod writer;

pub use bounded_read::Within;
pub use escaped::{Escaped, Kept};
pub use filled_file::{Filled, fill};
pub use laws::escaped_texts_are_plain;
pub use name::FileName;
pub use output::Output;
pub use source::Source;
pub use texts::may_begin_text;
