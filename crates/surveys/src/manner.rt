//! How the generals of a surveyed campaign send orders: orally or signed.
use combine::Rule;

/// How the generals of a campaign send orders.
#[derive(Clone, Copy)]
pub enum Manner {
    /// Orally, by the algorithm OM(m) with this rule for combining orders.
    Oral(Rule),
    /// With signatures, by the algorithm SM(m).
    Signed,
}
