//! Lists the calls that allocate memory, and their names.
use crate::chronicles::MessageKind;

/// A call that allocates memory.
#[derive(Clone, Copy)]
pub enum AllocatingCall {
    Decode,
    Encode,
    Assemble,
    Disassemble,
    Verify,
    BoardApply,
    /// Calls `World::open` or `SignedWorld::open`.
    Open(MessageKind),
    /// Calls `World::apply` or `SignedWorld::apply`.
    WorldApply(MessageKind),
    /// Calls `play` or `play_signed`.
    Play(MessageKind),
    ResolveAll,
    /// Calls `muster` or `muster_signed`.
    Muster(MessageKind),
    Read,
    ReadSchedule,
    /// Calls `check` or `check_signed`.
    Check(MessageKind),
}

/// All calls that allocate memory, each with its name on the command line.
pub const CALLS: &[(&str, AllocatingCall)] = &[
    ("decode", AllocatingCall::Decode),
    ("encode", AllocatingCall::Encode),
    ("assemble", AllocatingCall::Assemble),
    ("disassemble", AllocatingCall::Disassemble),
    ("verify", AllocatingCall::Verify),
    ("board_apply", AllocatingCall::BoardApply),
    ("open", AllocatingCall::Open(MessageKind::Oral)),
    ("world_apply", AllocatingCall::WorldApply(MessageKind::Oral)),
    ("play", AllocatingCall::Play(MessageKind::Oral)),
    ("resolve_all", AllocatingCall::ResolveAll),
    ("muster", AllocatingCall::Muster(MessageKind::Oral)),
    ("read", AllocatingCall::Read),
    ("read_schedule", AllocatingCall::ReadSchedule),
    ("check", AllocatingCall::Check(MessageKind::Oral)),
    ("open_signed", AllocatingCall::Open(MessageKind::Signed)),
    (
        "signed_apply",
        AllocatingCall::WorldApply(MessageKind::Signed),
    ),
    ("play_signed", AllocatingCall::Play(MessageKind::Signed)),
    ("check_signed", AllocatingCall::Check(MessageKind::Signed)),
    ("muster_signed", AllocatingCall::Muster(MessageKind::Signed)),
];

/// Returns the call with this name, or `None` if there is no such call.
pub fn named(name: &str) -> Option<AllocatingCall> {
    for &(own, call) in CALLS {
        if own == name {
            return Some(call);
        }
    }
    None
}
