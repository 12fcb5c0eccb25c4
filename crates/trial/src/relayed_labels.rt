//! Counts the labels that a general relays in a round.
ghost use Rattle.std.specs.Prelude.{◌≡◌, ◌≤◌, length};
ghost use Rattle.label.specs.Relay.{IsShape, relay};

use label::{Shape, Space, count};

/// Returns how many labels the general of `shape` relays in its round, from 0 to 990.
pub fn labels_relayed(shape: Shape) -> u32
    requires { IsShape shape }
    ensures { result ≡ length (relay shape) }
{
    if shape.general == shape.commander {
        return u32::from(shape.round == 1);
    }
    let space = Space {
        generals: shape.generals as u8,
        commander: shape.commander as u8,
        general: shape.general as u8,
    };
    count(space, (shape.round - 1) as u8)
}
