//! What the traitors of a family do.

/// What the traitors do in the campaigns of a family.
#[derive(Drop)]
pub enum Adversary {
    /// In an oral campaign each traitor sends each other general, at random, the order that he took, some order, or
    /// nothing. In a signed one he makes at most four random statements: a commander signs orders, and a lieutenant
    /// passes on chains.
    Lies,
    /// The traitors send nothing.
    Silent,
    /// The traitors act as with `Lies`, but the order (or the chain's index) in a statement is the parity of a count on
    /// the shared board. Each of them first increments this count.
    Collude,
    /// Each traitor runs the program with this bytecode, in hex.
    Given(String),
}
