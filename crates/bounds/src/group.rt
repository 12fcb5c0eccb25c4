//! Divides the generals into three groups. The stories are cut out of a ring that has two copies of each group, and
//! some messages cross from one copy to the other.
ghost use Rattle.std.specs.Prelude.{◌≡◌, ◌<◌, ◌≤◌, length};
ghost use Rattle.label.specs.Oral.{AllBelow};
ghost use Rattle.bounds.specs.Stories.{crossings, group_of, is_crossing};

/// Returns the group of a general, who must be below 13: 0 for the commander, and 1, 2, 0, 1, 2, 0 and so on for the
/// lieutenants in ascending order.
pub fn group_of(commander: u8, general: u8) -> u8
    requires { general < 13 }
    ensures { result ≡ group_of commander general }
{
    if general == commander {
        0
    } else if general < commander {
        (general + 1) % 3
    } else {
        general % 3
    }
}

/// Checks whether a message from group `from` to group `to` crosses from one copy of the groups to the other, in the
/// ring of two copies. This is so between the groups 0 and 2.
pub(crate) fn is_crossing(from: u8, to: u8) -> bool
    ensures { result ≡ is_crossing from to }
{
    from == 0 && to == 2 || from == 2 && to == 0
}

/// Returns how often an order crosses between the two copies of the groups while these generals relay it. There are
/// at most 13 of them, and each is below 13.
pub(crate) fn crossings(commander: u8, generals: &[u8]) -> u32
    requires below { AllBelow 13 generals.now }
    requires short { length generals.now ≤ 13 }
    ensures value { result ≡ crossings commander generals.now }
    ensures few { result ≤ 13 }
{
    let mut count = 0;
    for i in 1..generals.len() {
        let before = group_of(commander, generals[i - 1]);
        let after = group_of(commander, generals[i]);
        if is_crossing(before, after) {
            count += 1;
        }
    }
    count
}
