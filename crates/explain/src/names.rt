//! The names of helpers, as in assembly.
ghost use Rattle.std.specs.Prelude.{◌≡◌};
ghost use Rattle.explain.specs.Names.{helper_name};

use helper::Helper;

/// The names of helpers in assembly, in the order of the helpers' numbers.
pub static HELPERS: [&'static str; 11] = [
    "board_get",
    "board_swap",
    "board_add",
    "board_cas",
    "board_copy",
    "send",
    "send_row",
    "sway",
    "honest",
    "sign_order",
    "pass_on",
];

/// Returns the name of a helper in assembly.
#[tactic(auto, unfolding(crate::specs::Names::helper_name))]
pub fn helper_name(helper: Helper) -> &'static str
    ensures { result.now ≡ helper_name helper }
{
    HELPERS[helper as usize]
}
