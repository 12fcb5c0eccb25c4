//! Tests of the ranks of labels: `rank` finds the rank of a label, `unrank` the label of a rank, and `count` the number
//! of labels.

use label::{Label, LabelError, Space, count, rank, unrank};

/// The labels of thirteen generals with commander 0 that do not contain general 12.
const WIDE: Space = Space {
    generals: 13,
    commander: 0,
    general: 12,
};

/// The labels of five generals with commander 2 that do not contain general 0.
const SMALL: Space = Space {
    generals: 5,
    commander: 2,
    general: 0,
};

/// Checks whether a label has the rank `expected` in `WIDE`, the labels of a campaign with thirteen generals.
fn has_rank(label: &Label, expected: u32) -> bool {
    match rank(WIDE, label) {
        Ok(found) => found == expected,
        Err(_) => false,
    }
}

/// Checks that the labels 0.2.1.3.4 and 0.11.10.9.8 have ranks 720 and 7,919 in a campaign with thirteen generals.
fn have_ranks() -> bool {
    let low = Label::of(0).with(2).with(1).with(3).with(4);
    let high = Label::of(0).with(11).with(10).with(9).with(8);
    has_rank(&low, 720) && has_rank(&high, 7919)
}

/// Checks that label 2.3 has rank 1 among five generals, and that a label which contains the tree's own general has no
/// rank.
fn are_seen() -> bool {
    matches!(rank(SMALL, &Label::of(2).with(3)), Ok(1))
        && matches!(
            rank(WIDE, &Label::of(0).with(12)),
            Err(LabelError::NotALabel)
        )
}

#[test]
fn ranks(rt: HostRuntime) {
    assert!(rt; have_ranks() && are_seen());
}

/// Checks whether the label with rank `place` among the labels of length five consists of `generals`. The campaign has
/// thirteen generals.
fn is_label(place: u32, generals: &[u8]) -> bool {
    match unrank(WIDE, 5, place) {
        Ok(label) => label.generals() == generals,
        Err(_) => false,
    }
}

#[test]
fn labels(rt: HostRuntime) {
    assert!(rt; count(WIDE, 5) == 7920 && is_label(720, b"\x00\x02\x01\x03\x04"));
    assert!(rt; matches!(unrank(WIDE, 5, 7920), Err(LabelError::Rank)));
}
