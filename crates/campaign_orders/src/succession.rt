//! Finds the order of accesses that comes next in the ascending list of a campaign's orders.
ghost use Rattle.std.specs.Prelude.{◌≡◌, IfOk, option_map};
ghost use Rattle.campaign_orders.specs.Succession.{least_above, nearer, next_names, next_order};
ghost use Rattle.world.specs.Playing.{lists_in};

use std::alloc::AllocError;

/// Returns the lesser of `least` and `other` if `other` is greater than `general`, otherwise `least`. Here `None`
/// counts as greater than every general.
fn nearer(general: u8, other: u8, least: Option<u8>) -> Option<u8>
    ensures { result ≡ nearer general other least }
{
    if general >= other {
        return least;
    }
    match least {
        None => Some(other),
        Some(least) => Some(other.min(least)),
    }
}

/// Returns the least element of `names` that is greater than `general`, or `None` if there is no such element.
fn least_above(general: u8, names: &[u8]) -> Option<u8>
    ensures { result ≡ least_above general names.now }
{
    let mut least = None;
    let mut place = names.len();
    while place > 0 {
        place -= 1;
        least = nearer(general, names[place], least);
    }
    least
}

/// Returns how the next order of a round's accesses begins. It keeps `names` up to the last index that has a greater
/// name somewhere after it, and there has the least such name. For example, after `1 3 2` it is `2`. Returns `None` if
/// no index has a greater name after it.
fn next_names(mut names: Vec<u8>) -> Option<Vec<u8>>
    ensures { option_map (λ next. next.items) result ≡ next_names names.items }
{
    let mut place = names.len();
    while place > 0 {
        place -= 1;
        if let Some(general) = least_above(names[place], &names[place + 1..]) {
            names[place] = general;
            names.truncate(place + 1);
            return Some(names);
        }
    }
    None
}

/// Returns for each round how the next order of accesses after this one begins, or `None` if this is the last order.
/// Fails with `AllocError` if it runs out of memory.
pub(crate) fn next_order(mut order: Vec<Vec<u8>>) -> Result<Option<Vec<Vec<u8>>>, AllocError>
    ensures { IfOk result (λ next. option_map (λ names. lists_in names.items) next
        ≡ next_order (lists_in order.items)) }
{
    while let Some(names) = order.pop() {
        if let Some(next) = next_names(names) {
            order.push(next)?;
            return Ok(Some(order));
        }
    }
    Ok(None)
}
