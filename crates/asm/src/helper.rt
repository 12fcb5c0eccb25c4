//! The names of the helpers in assembly.

ghost use Rattle.std.specs.Prelude.{◌≡◌};
ghost use Rattle.asm.specs.Helper.{helper_of};

/// Returns the number of the helper with this name, 1 to 11, or `None` if there is no such helper.
#[tactic(auto, unfolding(crate::specs::Helper::helper_of))]
pub fn helper_named(name: &[u8]) -> Option<i32>
    ensures { result ≡ helper_of name.now }
{
    if name == b"board_get".as_slice() {
        Some(1)
    } else if name == b"board_swap".as_slice() {
        Some(2)
    } else if name == b"board_add".as_slice() {
        Some(3)
    } else if name == b"board_cas".as_slice() {
        Some(4)
    } else if name == b"board_copy".as_slice() {
        Some(5)
    } else if name == b"send".as_slice() {
        Some(6)
    } else if name == b"send_row".as_slice() {
        Some(7)
    } else if name == b"sway".as_slice() {
        Some(8)
    } else if name == b"honest".as_slice() {
        Some(9)
    } else if name == b"sign_order".as_slice() {
        Some(10)
    } else if name == b"pass_on".as_slice() {
        Some(11)
    } else {
        None
    }
}
