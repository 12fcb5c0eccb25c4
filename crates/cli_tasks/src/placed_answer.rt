//! The answer of a task: the bytes that it prints and, if a program was tried, the relay in which it was tried.
ghost use Rattle.std.specs.Prelude.{◌≡◌, None};

use label::Shape;

/// The bytes that a task prints. If they describe the trial of a program, the answer also says for which general and
/// round: its relay.
#[derive(Drop)]
pub struct Answer {
    /// The bytes that the task prints.
    pub text: Vec<u8>,
    /// The relay in which the program was tried: the general, the round and the numbers of the campaign. It is `None`
    /// if no program was tried in the setting of a second file.
    pub place: Option<Shape>,
}

impl Answer {
    ghost use Rattle.std.specs.Prelude.{◌≡◌, None};

    /// Returns the answer with these bytes, for a task that does not try a program in the setting of a second file.
    pub(crate) fn plain(text: Vec<u8>) -> Answer
        ensures text { result.text ≡ text }
        ensures place { result.place ≡ None }
    {
        Answer { text, place: None }
    }
}
