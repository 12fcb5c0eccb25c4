//! Computes Wilson's interval for the share of failed campaigns, at 95 per cent, in ten-thousandths.
ghost use Rattle.std.specs.Prelude.{◌≡◌, ◌≤◌, ◌<◌, ◌^◌, cond};
ghost use Rattle.surveys.specs.Wilson.{IsLower, interval, is_below, lower, upper};

/// Checks whether a share of `share` ten-thousandths is at most the lower end of Wilson's interval for `failed`
/// failures in `campaigns` campaigns.
#[tactic(auto, using(crate::proofs::Intervals::at_zero, crate::proofs::Intervals::not_below, crate::proofs::Intervals::as_below))]
fn is_below(campaigns: u64, failed: u64, share: u64) -> bool
    requires few { campaigns < 2 ^ 46 }
    requires part { failed ≤ campaigns }
    requires share { share ≤ 10000 }
    ensures { result ≡ is_below campaigns failed share }
{
    if share == 0 {
        return true;
    }
    let mean = u128::from(failed) * 10_000;
    let here = u128::from(campaigns) * u128::from(share);
    if mean <= here {
        return false;
    }
    let distance = (25 * (mean - here)) as u64;
    let spread = share * (10_000 - share);
    u128::from(2401 * campaigns) * u128::from(spread) <= u128::from(distance) * u128::from(distance)
}

/// Returns the lower end of Wilson's interval for `failed` failures in `campaigns` campaigns, in ten-thousandths,
/// rounded down.
fn lower(campaigns: u64, failed: u64) -> u64
    requires few { campaigns < 2 ^ 46 }
    requires part { failed ≤ campaigns }
    ensures same { result ≡ lower campaigns failed }
    ensures most { result ≤ 10000 }
    ensures lower { IsLower campaigns failed result }
{
    let mut found = 0;
    for share in 0..10_001 {
        found = later(found, is_below(campaigns, failed, share), share);
    }
    found
}

/// Returns `second` if `passes` is true, and otherwise `first`.
fn later(first: u64, passes: bool, second: u64) -> u64
    ensures { result ≡ cond passes second first }
{
    if passes { second } else { first }
}

/// Returns the upper end of Wilson's interval for `failed` failures in `campaigns` campaigns, in ten-thousandths,
/// rounded up.
fn upper(campaigns: u64, failed: u64) -> u64
    requires few { campaigns < 2 ^ 46 }
    requires part { failed ≤ campaigns }
    ensures { result ≡ upper campaigns failed }
{
    10_000 - lower(campaigns, campaigns - failed)
}

/// Returns Wilson's interval at 95 per cent for the share of failed campaigns, if `failed` of `campaigns` campaigns
/// failed. Its ends are in ten-thousandths, the lower one rounded down and the upper one rounded up. Returns `None` if
/// `campaigns` is 2^46 or more, or less than `failed`.
pub fn interval(campaigns: u64, failed: u64) -> Option<(u64, u64)>
    ensures { result ≡ interval campaigns failed }
{
    if campaigns < failed {
        return None;
    }
    if campaigns >= 70_368_744_177_664 {
        return None;
    }
    Some((lower(campaigns, failed), upper(campaigns, failed)))
}
