//! States laws of the board. Each function does nothing, and its contract is the law.
ghost use Rattle.board.specs.Laws.{BoardsServe};

/// States that the board replies to any request of a program with the number of words that the request asks for.
/// After that, its words are again the words of a board.
pub fn boards_serve()
    ensures { BoardsServe }
{}
