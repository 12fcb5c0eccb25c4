//! Checks that the generals named on the command line are generals of the message table or the campaign.
ghost use Rattle.std.specs.Prelude.{◌≡◌, nat_le, None, IfErr, OnOk};
ghost use Rattle.cli_tasks.specs.Strangers.{IsStranger, IsStrangerToTree, stranger_among, stranger_to_tree};

use crate::refusal::InputRefusal;

/// Checks whether `general` is not one of the generals 0 to `generals - 1`.
fn is_stranger(generals: u8, general: u8) -> bool
    ensures { result ≡ nat_le generals general }
{
    general >= generals
}

/// Returns the first of the named generals who is not one of the generals 0 to `generals - 1`. Returns `None` if all of
/// them are.
fn stranger_among(generals: u8, named: &[u8]) -> Option<u8>
    ensures { result ≡ stranger_among generals named.now }
{
    for general in named {
        if is_stranger(generals, *general) {
            return Some(*general);
        }
    }
    None
}

/// Checks that each named general is one of the generals 0 to `generals - 1`.
///
/// # Errors
///
/// Fails with `Stranger` for the first named general who is not.
pub(crate) fn know_all(generals: u8, named: &[u8]) -> Result<(), InputRefusal>
    ensures known { OnOk result (stranger_among generals named.now ≡ None) }
    ensures refused { IfErr result (IsStranger generals named.now) }
{
    match stranger_among(generals, named) {
        None => Ok(()),
        Some(general) => Err(InputRefusal::Stranger { general, generals }),
    }
}

/// Checks that `general` is a lieutenant: one of the generals 0 to `generals - 1`, but not the commander. Checks also
/// that each of `traitors` is one of the generals.
///
/// # Errors
///
/// Fails with `Stranger` for `general` if he is not a lieutenant, or else for the first of `traitors` who is not one of
/// the generals.
pub(crate) fn know_tree(
    generals: u8,
    commander: u8,
    general: u8,
    traitors: &[u8],
) -> Result<(), InputRefusal>
    ensures known { OnOk result (stranger_to_tree generals commander general traitors.now ≡ None) }
    ensures refused { IfErr result (IsStrangerToTree generals commander general traitors.now) }
{
    if is_stranger(generals, general) || general == commander {
        return Err(InputRefusal::Stranger { general, generals });
    }
    know_all(generals, traitors)
}
