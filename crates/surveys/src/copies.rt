//! Copies campaigns and adversaries.
ghost use Rattle.std.specs.Prelude.{◌≡◌, IfOk, option_map, string_bytes};
ghost use Rattle.surveys.specs.Breaches.{IsSameAs};

use crate::adversary::Adversary;
use crate::plot::{Plot, Traitor};
use std::alloc::{AllocError, Global};

/// Returns a copy of a traitor.
fn traitor_copied(alloc: Global, traitor: &Traitor) -> Result<Traitor, AllocError>
    ensures { IfOk result (λ copy. copy ≡ traitor.now) }
{
    Ok(Traitor {
        general: traitor.general,
        counts: traitor.counts,
        lies: Vec::from_slice(alloc, traitor.lies.as_slice())?,
    })
}

/// Returns copies of the traitors, in their order.
fn traitors_copied(alloc: Global, traitors: &[Traitor]) -> Result<Vec<Traitor>, AllocError>
    ensures { IfOk result (λ copies. copies.items ≡ traitors.now) }
{
    let mut copies = Vec::new(alloc);
    for traitor in traitors {
        copies.push(traitor_copied(alloc, traitor)?)?;
    }
    Ok(copies)
}

/// Returns a copy of the traitors' bytecode in hex, or `None` if `given` is `None`.
fn given_copied(alloc: Global, given: Option<&str>) -> Result<Option<String>, AllocError>
    ensures { IfOk result (λ copy. option_map string_bytes copy ≡ option_map (λ hex. hex.now) given.entry) }
{
    match given {
        Some(hex) => Ok(Some(String::from_str(alloc, hex)?)),
        None => Ok(None),
    }
}

/// Returns a copy of a campaign.
pub(crate) fn copied(alloc: Global, plot: &Plot) -> Result<Plot, AllocError>
    ensures { IfOk result (λ copy. copy ≡ plot.now) }
{
    Ok(Plot {
        generals: plot.generals,
        bound: plot.bound,
        commander: plot.commander,
        order: plot.order,
        manner: plot.manner,
        patience: plot.patience,
        given: given_copied(alloc, plot.given.as_deref())?,
        traitors: traitors_copied(alloc, plot.traitors.as_slice())?,
    })
}

/// Returns a copy of an adversary, from which seeds draw the same campaigns.
pub(crate) fn adversary_copied(
    alloc: Global,
    adversary: &Adversary,
) -> Result<Adversary, AllocError>
    ensures { IfOk result (IsSameAs adversary.now) }
{
    match adversary {
        Adversary::Lies => Ok(Adversary::Lies),
        Adversary::Silent => Ok(Adversary::Silent),
        Adversary::Collude => Ok(Adversary::Collude),
        Adversary::Given(hex) => Ok(Adversary::Given(String::from_str(alloc, hex.as_str())?)),
    }
}
