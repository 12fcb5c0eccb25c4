//! The kinds of arguments that helpers take in registers, and the limits of those that are numbers.
ghost use Rattle.std.specs.Prelude.{◌≡◌, ◌+◌, option_map};
ghost use Rattle.helper.specs.Table.{bound_of};

/// The number of words of the board.
pub const BOARD_WORDS: u64 = 64;

/// The greatest number of generals in a campaign.
pub const MOST_GENERALS: u64 = 13;

/// The number of labels for which a context has room.
pub const MOST_LABELS: u64 = 1016;

/// The greatest number of chains of signatures that a general can hold.
pub const MOST_HELD: u64 = 384;

/// The number of sets of generals. A set is a number with one bit for each of 13 generals.
pub const RECEIVER_SETS: u64 = 8192;

/// The kind of an argument that a helper takes in a register.
#[derive(Clone, Copy, PartialEq, Eq)]
pub enum Argument {
    /// A slot of the board, 0 to 63.
    Slot,
    /// Any number of 64 bits.
    Word,
    /// The rank of a label, 0 to 1015.
    Label,
    /// A general who receives an order, 0 to 12.
    Receiver,
    /// A number of words of the board, 0 to 64.
    Words,
    /// A number of orders, 0 to 13.
    Orders,
    /// The index of a chain of signatures that the general holds, 0 to 383.
    Held,
    /// A set of receivers as a number from 0 to 8191. Bit g is set if general g is a receiver.
    Receivers,
    /// A pointer to the place in the stack where the helper writes.
    StackPointer,
    /// A pointer to the place in the stack or the context where the helper reads.
    ReadablePointer,
}

impl Argument {
    /// Returns the greatest number that the helper accepts as this argument, or `None` if it accepts a pointer.
    pub fn greatest(self) -> Option<u64>
        ensures { option_map (λ n. n + 1) result ≡ bound_of self }
    {
        match self {
            Argument::Slot => Some(BOARD_WORDS - 1),
            Argument::Word => Some(u64::MAX),
            Argument::Label => Some(MOST_LABELS - 1),
            Argument::Receiver => Some(MOST_GENERALS - 1),
            Argument::Words => Some(BOARD_WORDS),
            Argument::Orders => Some(MOST_GENERALS),
            Argument::Held => Some(MOST_HELD - 1),
            Argument::Receivers => Some(RECEIVER_SETS - 1),
            Argument::StackPointer | Argument::ReadablePointer => None,
        }
    }
}
