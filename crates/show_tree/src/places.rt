//! Writes the name of a label in a drawn tree, and finds the branches that lead to it.
ghost use Rattle.std.specs.Prelude.{◌≡◌, ◌<◌, ◌+◌, ◌++◌, ◌∷◌, length, string_bytes, OnOk};
ghost use Rattle.label.specs.Labels.{on};
ghost use Rattle.book.specs.Explained.{dotted};
ghost use Rattle.show_tree.specs.Places.{branch_at, branch_of, is_last, later_names};

use crate::node::Branch;
use std::alloc::AllocError;

/// Appends the name of a label: its generals, joined by dots, such as `0.2`.
pub(crate) fn put_label(out: &mut String, label: &[u8]) -> Result<(), AllocError>
    ensures { OnOk result (string_bytes out.new ≡ string_bytes out.old ++ dotted label.now) }
{
    match label {
        [] => Ok(()),
        [first, rest @ ..] => {
            write!(out, "{first}")?;
            put_rest(out, rest)
        }
    }
}

/// Appends each of these generals after a dot, such as `.2.3`.
fn put_rest(out: &mut String, rest: &[u8]) -> Result<(), AllocError>
    ensures { OnOk result (string_bytes out.new ≡ string_bytes out.old ++ later_names rest.now) }
{
    for general in rest {
        write!(out, ".{general}")?;
    }
    Ok(())
}

/// Checks whether no general above `teller` can follow the generals `before` on a label of the lieutenant `general`.
/// The generals that can follow are those that are neither `general` nor in `before`.
fn is_last(generals: u8, general: u8, before: &[u8], teller: u8) -> bool
    ensures { result ≡ is_last generals (general ∷ before.now) teller }
{
    let mut is_last = true;
    for other in 0..generals {
        if other != general && !has(before, other) {
            is_last = is_last && other <= teller;
        }
    }
    is_last
}

/// Checks whether `generals` contains `general`.
fn has(generals: &[u8], general: u8) -> bool
    ensures { result ≡ on generals.now general }
{
    generals.iter().any(|x| *x == general)
}

/// Returns the branch in column `place` of a label's row. This branch leads from the label's first `place + 1`
/// generals to the labels that extend them.
pub(crate) fn branch_at(generals: u8, general: u8, label: &[u8], place: usize) -> Branch
    requires { place + 1 < length label.now }
    ensures { result ≡ branch_at generals general label.now place }
{
    let is_last = is_last(generals, general, &label[..place + 1], label[place + 1]);
    branch_of(is_last, place + 2 == label.len())
}

/// Returns how a branch looks in a row. `is_last` says that it leads to the last label of its group, and `is_here`
/// that this label is in the row.
fn branch_of(is_last: bool, is_here: bool) -> Branch
    ensures { result ≡ branch_of is_last is_here }
{
    match (is_last, is_here) {
        (true, true) => Branch::Corner,
        (false, true) => Branch::Tee,
        (true, false) => Branch::Gap,
        (false, false) => Branch::Bar,
    }
}
