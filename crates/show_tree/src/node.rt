//! Defines the types of a drawn tree: what it says about each label, how much of the tree it shows, and how it draws
//! branches.
use combine::Outcome;
use label::Label;

/// Which marks occur in a picture, so that its legend explains these and no others.
#[derive(Clone, Copy, Drop)]
pub struct DrawnMarks {
    /// Whether any label is drawn as a circle: its message is not known to be a lie.
    pub circle: bool,
    /// Whether any label is drawn as a square: its message is from a commander who is named as a traitor, and it is not
    /// known which order he was given.
    pub square: bool,
    /// Whether any label is drawn as a diamond: its message is a lie.
    pub diamond: bool,
    /// Whether any label has a dashed outline: no order has a majority in its list.
    pub dashes: bool,
}

/// Whether a message to the lieutenant is known to be a lie.
#[derive(Clone, Copy, Drop)]
pub enum Trust {
    /// No lie is known: the sender is not named as a traitor, or he sent the order that he took. (A commander takes
    /// the order that he was given.)
    Honest,
    /// The message is from a commander who is named as a traitor, and it is not known which order he was given.
    Traitor,
    /// The message is a lie: its sender is named as a traitor, and he did not send the order that he took. The first
    /// field is the sender, and the second the order that he took. (A commander takes the order that he was given.)
    Lie(u8, u32),
}

/// Whether a picture shows the labels that extend a label.
#[derive(Clone, Copy, Drop)]
pub enum Extent {
    /// No label extends this one.
    Last,
    /// The labels that extend this one are shown.
    Open,
    /// The labels that extend this one are folded into it: for each of them the same order was received, and none is
    /// a lie. The field is their number.
    Folded(u32),
    /// The labels that extend this one are not shown, because they are deeper than the view. The field is their
    /// number.
    Cut(u32),
}

/// How much of a tree a picture shows, and what is known of the commander's order.
#[derive(Clone, Copy, Drop)]
pub struct View {
    /// How many levels of labels are shown below the commander's own label, from 0 to 4.
    pub depth: u8,
    /// Whether a label is shown without the labels that extend it if the same was received for all of them and none
    /// is a lie.
    pub folds: bool,
    /// The order that the commander was given, if it is known.
    pub order: Option<u32>,
}

/// The characters that draw the branches of a tree in text.
#[derive(Clone, Copy, PartialEq, Eq, Drop)]
pub enum Style {
    /// ASCII characters.
    Ascii,
    /// Box-drawing characters, in UTF-8.
    Boxes,
}

/// How a branch of the tree looks in one column of a label's row.
#[derive(Clone, Copy, PartialEq, Eq, Drop)]
pub enum Branch {
    /// The branch leads to the label of this row, and continues downwards.
    Tee,
    /// The branch leads to the label of this row and ends there.
    Corner,
    /// The branch passes this row, and leads to a label further down.
    Bar,
    /// There is no branch in this column, because it ended further up.
    Gap,
}

/// A label of a drawn tree, with everything that a picture says about it.
#[derive(Drop)]
pub struct Node {
    /// The label: the generals through whom the order came.
    pub label: Label,
    /// The order that the lieutenant received for the label, or `None` if he received none. 0 is RETREAT.
    pub told: Option<u32>,
    /// The outcome of the list that he combines at the label. It is `None` for a label of full length, which has no
    /// list.
    pub outcome: Option<Outcome>,
    /// Whether the message for the label is known to be a lie.
    pub mark: Trust,
    /// Whether the labels that extend this one are shown.
    pub extent: Extent,
}
