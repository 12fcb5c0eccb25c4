//! Defines the setting of a trial: the general, the round, the orders that he took, and the board.
ghost use Rattle.std.specs.Prelude.{◌≡◌, ◌≤◌, ◌+◌, length, vec_len, IfOk};
ghost use Rattle.label.specs.Relay.{IsShape, relay};
ghost use Rattle.trial.specs.Setting.{bench, context_in};

use label::Shape;
use mem::context_telling;
use std::alloc::{AllocError, Global};
use std::marker::Model;

/// The setting of a trial: the number of generals, the commander, the general and the round (`shape`), and the
/// campaign's bound. It also has the order that he took for each label that he relays, by rank, and the board's words
/// at the start.
#[derive(Drop)]
pub struct Setting {
    shape: Shape,
    bound: u32,
    taken: Vec<u32>,
    board: [u64; 64],
}

impl Model for Setting {
    ghost use Rattle.trial.specs.Setting.{Setting as Told, IsTold};

    ghost Value = { Told };

    ghost view = { λ s. record { shape = s.shape; bound = s.bound; taken = s.taken.items; board = s.board } };

    ghost invariant = { λ s. IsTold s.shape s.bound s.taken.items };
}

impl Setting {
    /// Returns a setting. `taken` has an order for each label that the general of `shape` relays, and `board` the
    /// board's words at the start.
    pub(crate) fn new(shape: Shape, bound: u32, taken: Vec<u32>, board: [u64; 64]) -> Setting
        requires shape { IsShape shape }
        requires rounds { shape.round ≤ bound + 1 }
        requires few { bound ≤ 4 }
        requires enough { bound + 2 ≤ shape.generals }
        requires each { length taken.items ≡ length (relay shape) }
        ensures { result ≡ record { shape = shape; bound = bound; taken = taken.items; board = board } }
    {
        Setting {
            shape,
            bound,
            taken,
            board,
        }
    }

    /// Returns the setting in which a program is checked if none is given: general 3 of 4 in round 1, when he relays
    /// nothing, and a board of zeros.
    pub fn bench(alloc: Global) -> Setting
        ensures { result ≡ bench }
    {
        let shape = Shape {
            generals: 4,
            commander: 0,
            general: 3,
            round: 1,
        };
        Setting::new(shape, 1, Vec::new(alloc), [0; 64])
    }

    /// Returns the number of generals, the commander, the general and the round.
    pub fn shape(&self) -> Shape
        ensures same { result ≡ self.now.shape }
        ensures within { IsShape result }
    {
        self.shape
    }

    /// Returns the board's words at the start of a trial.
    pub fn board(&self) -> [u64; 64]
        ensures { result ≡ self.now.board }
    {
        self.board
    }

    /// Returns the context of the setting's general, 4,096 bytes that the program can read.
    ///
    /// # Errors
    ///
    /// Fails with `AllocError` if there is no memory for the bytes.
    pub fn context(&self, alloc: Global) -> Result<Vec<u8>, AllocError>
        ensures bytes { IfOk result (λ bytes. bytes.items ≡ context_in self.now) }
        ensures whole { IfOk result (λ bytes. vec_len bytes ≡ 4096) }
    {
        let Shape {
            generals,
            commander,
            general,
            round,
        } = self.shape;
        let taken = self.taken.as_slice();
        // The eight numbers with which a context begins (`context_numbers` of `mem`). After the round follow the
        // number of labels that are relayed, the number of receivers of each label, and 0, because orders are oral.
        let header = [
            generals,
            self.bound,
            general,
            commander,
            round,
            taken.len() as u32,
            generals - round,
            0,
        ];
        context_telling(alloc, &header, taken)
    }
}
