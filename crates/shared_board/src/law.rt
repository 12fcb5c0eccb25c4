//! Defines the rule that the history of a shared board follows, and the steps that append an access or read the
//! history's length.
use board::Access;
use logbook::{Gain, Plain, Play, Rule, Seen, Word};

/// The rule of the history of accesses: the word that threads share is the history's length.
pub(crate) struct Law;

impl Rule<Access, u64> for Law {
    ghost use Rattle.std.specs.Prelude.{[]};
    ghost use base.Fml.{ftrue};
    ghost use Rattle.shared_board.specs.History.{IsKept};

    ghost holds = { λ cells log. IsKept cells log };

    ghost first = { [] };

    ghost hinted = { λ n log. Unit {0} };

    ghost shows = { λ log. [] };

    ghost keeps = { λ names log. ftrue };

    ghost moves = { λ ask before after answer. Unit {0} };
}

/// What a thread gains from a step on the history: nothing.
pub(crate) struct Nothing;

impl Gain<Access, u64> for Nothing {
    ghost use base.Fml.{ftrue};

    ghost after = { λ names about answer. ftrue };
}

/// A step that appends an access to the history.
pub(crate) struct Enter;

impl Play<Access, u64> for Enter {
    ghost use Rattle.shared_board.specs.History.{Enters};

    ghost then = { Enters };
}

/// A step of this kind asks to append the given access.
impl Plain<Access, Access, u64> for Enter {
    ghost use Rattle.std.specs.Prelude.{None};

    ghost ask = { λ access. access };

    ghost state = { λ access. None };
}

/// A step that reads the length of the history.
pub(crate) struct Look;

impl Play<Access, u64> for Look {
    ghost use Rattle.shared_board.specs.History.{Looks};

    ghost then = { Looks };
}

/// A step of this kind asks for nothing. The access that it names is not appended.
impl Plain<(), Access, u64> for Look {
    ghost use Rattle.std.specs.Prelude.{None};
    ghost use Rattle.shared_board.specs.History.{no_access};

    ghost ask = { λ nothing. no_access };

    ghost state = { λ nothing. None };
}

/// The word, shared by threads, that holds the number of accesses in the history.
pub(crate) type Head = Word<Access, u64, Law>;

/// A prefix of the history that has been seen. It takes no bytes at run time.
pub(crate) type Beginning = Seen<Access, u64, Law>;
