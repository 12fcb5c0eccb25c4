//! How the generals of a campaign send orders: orally or with signatures.
use round::Scenario;

/// How the generals of a campaign send orders.
#[derive(Clone, Copy, PartialEq, Eq)]
pub enum Messages {
    /// Orders are sent orally, by the algorithm OM(m).
    Oral,
    /// Orders are sent with signatures, by the algorithm SM(m).
    Signed,
}

/// Which campaigns a reader of scenarios accepts.
#[derive(Clone, Copy, PartialEq, Eq)]
pub enum Kinds {
    /// The reader accepts only oral campaigns.
    OralAlone,
    /// The reader accepts oral and signed campaigns.
    Both,
}

/// A campaign that a text describes.
#[derive(Drop)]
pub enum Campaign {
    /// A campaign with oral messages.
    Oral(Scenario),
    /// A campaign with signed messages. Its scenario has the default rule, since its text may not name a rule.
    Signed(Scenario),
}
