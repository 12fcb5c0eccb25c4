//! Defines a function that does nothing at run time. Its contract is a fact that proofs use.
ghost use Rattle.std.specs.Prelude.{◌≡◌, length};
ghost use Rattle.board.specs.Board.{IsBoard};

/// States that 64 words of 64 bits are the words of a board.
pub fn recall_board(words: &[u64])
    requires { length words.now ≡ 64 }
    ensures { IsBoard words.now }
{}
