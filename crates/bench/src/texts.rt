//! Builds the texts of the campaigns that are timed.

use std::alloc::{AllocError, Global};
use world_tests::{campaign, counting};

/// The number of instructions of a long program, without its exit.
const MOVES: usize = 4095;

/// The scenario of seven generals with bound 2. The commander 0 and general 4 are traitors who share the board.
pub const COLLUDING: &str = counting!(
    campaign "exit\n", "generals = 7\nbound = 2\ncommander = 0\norder = 0\n", [0, 4]
);

/// A program for signed messages. It signs eight orders, which only the commander can do, and then passes on the last
/// eight chains that the general holds. Everything is sent to all generals.
const SIGNING: &str = "ldw r6, [r1+20]
mov r1, 0
mov r2, 8191
call sign_order
mov r1, 1
mov r2, 8191
call sign_order
mov r1, 2
mov r2, 8191
call sign_order
mov r1, 3
mov r2, 8191
call sign_order
mov r1, 4
mov r2, 8191
call sign_order
mov r1, 5
mov r2, 8191
call sign_order
mov r1, 6
mov r2, 8191
call sign_order
mov r1, 7
mov r2, 8191
call sign_order
mov r1, r6
sub r1, 1
and r1, 255
mov r2, 8191
call pass_on
mov r1, r6
sub r1, 2
and r1, 255
mov r2, 8191
call pass_on
mov r1, r6
sub r1, 3
and r1, 255
mov r2, 8191
call pass_on
mov r1, r6
sub r1, 4
and r1, 255
mov r2, 8191
call pass_on
mov r1, r6
sub r1, 5
and r1, 255
mov r2, 8191
call pass_on
mov r1, r6
sub r1, 6
and r1, 255
mov r2, 8191
call pass_on
mov r1, r6
sub r1, 7
and r1, 255
mov r2, 8191
call pass_on
mov r1, r6
sub r1, 8
and r1, 255
mov r2, 8191
call pass_on
exit
";

/// Returns the scenario of thirteen generals with bound 4, as text. Generals 9 to 12 are traitors whose programs take
/// 4,096 steps in each round.
pub fn idle(alloc: Global) -> Result<String, AllocError> {
    let keys = "generals = 13\nbound = 4\ncommander = 0\norder = 1\n";
    with_program(alloc, keys, &["9", "10", "11", "12"], long(alloc)?.as_str())
}

/// Returns the scenario of thirteen generals with bound 4 and signed messages, as text. The commander 0 and generals
/// 10 to 12 are traitors who sign orders and pass chains on.
pub fn signing(alloc: Global) -> Result<String, AllocError> {
    let keys = "generals = 13\nbound = 4\ncommander = 0\norder = 1\nmessages = \"signed\"\n";
    with_program(alloc, keys, &["0", "10", "11", "12"], SIGNING)
}

/// Returns the assembly of a program of 4,096 instructions.
fn long(alloc: Global) -> Result<String, AllocError> {
    let mut program = String::new(alloc);
    for _ in 0..MOVES {
        program.push_str("mov r0, 0\n")?;
    }
    program.push_str("exit\n")?;
    Ok(program)
}

/// Returns a scenario as text, with these keys. Each of `generals` is a traitor who runs the assembly program
/// `program`.
fn with_program(
    alloc: Global,
    keys: &str,
    generals: &[&str],
    program: &str,
) -> Result<String, AllocError> {
    let mut text = String::from_str(alloc, keys)?;
    for general in generals {
        push_traitor(&mut text, *general, program)?;
    }
    Ok(text)
}

/// Appends a traitor to the text of a scenario: the general and his assembly program.
fn push_traitor(text: &mut String, general: &str, program: &str) -> Result<(), AllocError> {
    text.push_str("[[traitor]]\ngeneral = ")?;
    text.push_str(general)?;
    text.push_str("\nasm = '''\n")?;
    text.push_str(program)?;
    text.push_str("'''\n")
}
