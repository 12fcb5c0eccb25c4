//! Narrows a family to one number of generals, one bound and one number of traitors.
ghost use Rattle.std.specs.Prelude.{◌≡◌, ◌≤◌, IfOk};
ghost use Rattle.surveys.specs.Breaches.{narrowed, only};
ghost use Rattle.surveys.specs.Plotting.{plot_of};

use crate::copies::adversary_copied;
use crate::family::Family;
use crate::span::CountRange;
use std::alloc::{AllocError, Global};

/// Returns the range that contains only `number`.
fn only(number: u8) -> CountRange
    ensures { result ≡ only number }
{
    CountRange {
        low: number,
        high: number,
    }
}

/// Returns a family that differs from `family` in three ranges: the number of generals is always `generals`, the bound
/// `bound`, and the number of traitors `traitors`.
pub(crate) fn narrowed(
    alloc: Global,
    family: &Family,
    generals: u8,
    bound: u8,
    traitors: u8,
) -> Result<Family, AllocError>
    requires least { 2 ≤ generals }
    requires most { generals ≤ 13 }
    ensures { IfOk result (λ less. plot_of less ≡ plot_of (narrowed family.now generals bound traitors)) }
{
    let _ = family.generals();
    Ok(Family::new(
        only(generals),
        only(bound),
        only(traitors),
        family.commander(),
        family.orders(),
        family.grid(),
        family.manner(),
        family.patience(),
        adversary_copied(alloc, family.adversary())?,
    ))
}
