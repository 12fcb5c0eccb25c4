//! Counts the orders that traitors send to loyal generals.
ghost use Rattle.std.specs.Prelude.{◌≡◌, ◌≤◌, ◌<◌, true, false};
ghost use Rattle.book.specs.Grammar.{is_within};
ghost use Rattle.lies.specs.Places.{AreMostPlaces};
ghost use Rattle.lies.specs.PlaceCounts.{most_by, own_places, places, places_bound};

use crate::break_table::is_within;

/// Returns the most orders that at most `most` traitors send to loyal generals by OM(m), under any commander. `bound` is
/// m. It is 0 if the numbers are out of the limits of a message table.
///
/// If it is x, a search that finds no break has decided up to 2^x campaigns with the orders 0 and 1 for each set of
/// traitors.
pub fn most_places(generals: u8, bound: u8, most: u8) -> u32
    ensures most { is_within generals bound 0 ≡ true → AreMostPlaces generals bound most result }
    ensures outside { is_within generals bound 0 ≡ false → result ≡ 0 }
{
    if !is_within(generals, bound, 0) {
        return 0;
    }
    let mut best = 0;
    for count in 0..most.min(generals) + 1 {
        best = best.max(most_by(generals, bound, count));
    }
    best
}

/// Returns the most orders that exactly `count` traitors, at most all generals, send to loyal generals.
fn most_by(generals: u8, bound: u8, count: u8) -> u32
    requires few { generals ≤ 13 }
    requires short { bound ≤ 4 }
    requires within { count ≤ generals }
    ensures { result ≡ most_by generals bound count }
{
    let under_loyal = if count < generals {
        places(bound, false, generals - count - 1, count)
    } else {
        0
    };
    let under_traitor = if count > 0 {
        places(bound, true, generals - count, count - 1)
    } else {
        0
    };
    under_loyal.max(under_traitor)
}

/// Returns how many orders traitors send to loyal generals about a label and those that extend it by up to `relays`
/// generals, if this many loyal generals and traitors are off the label.
#[cycle(places)]
fn places(relays: u8, is_traitor: bool, loyals: u8, traitors: u8) -> u32
    requires short { relays ≤ 4 }
    requires few { loyals ≤ 13 }
    requires few_traitors { traitors ≤ 13 }
    ensures value { result ≡ places relays is_traitor loyals traitors }
    ensures few { result ≤ places_bound relays }
{
    let own = own_places(is_traitor, loyals);
    if relays == 0 {
        return own;
    }
    let loyal = places(relays - 1, false, loyals.saturating_sub(1), traitors);
    let traitor = places(relays - 1, true, loyals, traitors.saturating_sub(1));
    own + (u32::from(loyals) * loyal + u32::from(traitors) * traitor)
}

/// Returns how many orders the last general of a label sends to loyal generals, if he is a traitor.
fn own_places(is_traitor: bool, loyals: u8) -> u32
    ensures { result ≡ own_places is_traitor loyals }
{
    if is_traitor { u32::from(loyals) } else { 0 }
}
