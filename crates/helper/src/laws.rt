//! Laws of calls. Each function does nothing, and its contract is the law.
ghost use Rattle.helper.specs.Windows.{CallsTrapByTable};

/// States when a call traps: if one of its arguments is not accepted, and the first such one is the cause. If each is
/// accepted, it traps if slot and count go past the board, or if the memory at its pointer does not fit. Memory to
/// write must be in the stack, with 8 bytes for each word, and memory to read must have bytes, 4 for each order.
/// Otherwise the call does not trap.
pub fn calls_trap_by_the_table()
    ensures { CallsTrapByTable }
{}
