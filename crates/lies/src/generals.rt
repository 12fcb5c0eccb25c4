//! Lists of generals.
ghost use Rattle.std.specs.Prelude.{◌≡◌, ◌<◌, ◌≤◌, length};
ghost use Rattle.label.specs.Labels.{on, others};
ghost use Rattle.lies.specs.Plans.{without};

use arrayvec::ArrayVec;

/// Returns whether the general is in the list.
pub(crate) fn is_among(generals: &[u8], general: u8) -> bool
    ensures { result ≡ on generals.now general }
{
    generals.iter().any(|other| *other == general)
}

/// Returns the generals of a list of at most 13 without this general.
pub(crate) fn without(generals: &[u8], general: u8) -> ArrayVec<u8, 13>
    requires { length generals.now ≤ 13 }
    ensures { result.items ≡ without generals.now general }
{
    let mut rest = ArrayVec::new();
    for other in generals {
        if *other != general {
            rest.push(*other);
        }
    }
    rest
}

/// Returns the generals below `all` who are not in the list, in ascending order. `all` is at most 13.
pub(crate) fn others(all: u8, generals: &[u8]) -> ArrayVec<u8, 13>
    requires { all ≤ 13 }
    ensures { result.items ≡ others all generals.now }
{
    let mut rest = ArrayVec::new();
    for general in 0..all {
        if !is_among(generals, general) {
            rest.push(general);
        }
    }
    rest
}
