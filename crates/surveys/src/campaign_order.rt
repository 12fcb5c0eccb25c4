//! Compares reduced broken campaigns, to find the least.
ghost use Rattle.std.specs.Prelude.{◌≡◌};
ghost use Rattle.surveys.specs.Breaches.{is_before, statements};

use crate::breach::Breach;
use crate::plot::Plot;

/// Returns how many statements a campaign's traitors have in all.
pub fn statements(plot: &Plot) -> u128
    ensures { result ≡ statements plot.now }
{
    let mut count: u128 = 0;
    for traitor in &plot.traitors {
        count += traitor.lies.len() as u128;
    }
    count
}

/// Checks whether the first campaign is less than the second. It compares the numbers of traitors, if these are equal
/// the numbers of statements, and if these are equal, too, the seeds.
pub fn is_before(first: &Breach, second: &Breach) -> bool
    ensures { result ≡ is_before first.now second.now }
{
    let (here, there) = (first.plot.traitors.len(), second.plot.traitors.len());
    if here != there {
        return here < there;
    }
    let (here, there) = (statements(&first.plot), statements(&second.plot));
    if here != there {
        return here < there;
    }
    first.seed < second.seed
}
