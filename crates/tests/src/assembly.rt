//! Tests of the assembler, which turns text into programs, and of the disassembler.

use asm::{AsmError, assemble, disassemble};
use insn::Program;
use std::alloc::Global;
use std::fmt::Display;

/// Texts, each with the message with which the assembler rejects it: a code and a line. The message is empty for a text
/// that is accepted.
const REFUSALS: &[(&str, &str)] = &[
    ("", "A7 line 1"),
    ("mov r11, 0", "A3 line 1"),
    ("foo r0", "A2 line 1"),
    ("mov r0, 2147483648", "A6 line 1"),
    ("ja nowhere\nexit", "A4 line 1"),
    ("a: exit\na: exit", "A5 line 2"),
    ("; nothing\n\n", "A7 line 2"),
    ("ja +40000\nfoo", "A2 line 2"),
    ("ja +40000\nexit", "A6 line 1"),
    // The overall form of a line is checked before its operands.
    ("mov r0 0", "A1 line 1"),
    ("mov r0,,0", "A1 line 1"),
    ("mov! r0", "A1 line 1"),
    ("exit\r", "A1 line 1"),
    ("ldb r0, [r10 - 8]", "A1 line 1"),
    ("mov.x r0, 0", "A2 line 1"),
    ("MOV r0, 0", "A2 line 1"),
    ("mov R0, 0", "A3 line 1"),
    ("exit 0", "A3 line 1"),
    ("mov r0, b:", "A3 line 1"),
    ("ja 3", "A3 line 1"),
    ("exit\r\n\ta_1:exit ; \u{e9}\r\n", ""),
];

/// Checks whether an error is displayed as the text `expected`.
fn is_printed(alloc: Global, error: AsmError, expected: &str) -> bool {
    match error.to_string(alloc) {
        Ok(text) => text.as_str() == expected,
        Err(_) => false,
    }
}

/// Checks whether the assembler rejects a text with the message `refusal`, or accepts it if this is empty.
fn is_refused(alloc: Global, text: &str, refusal: &str) -> bool {
    match assemble(alloc, text) {
        Ok(_) => refusal.is_empty(),
        Err(error) => is_printed(alloc, error, refusal),
    }
}

/// Checks each text in `REFUSALS`: whether it is rejected with its code and its line.
#[test]
fn refusals_have_their_code_and_line(rt: HostRuntime) {
    let alloc = rt.alloc();
    for &(text, refusal) in REFUSALS {
        assert!(rt; is_refused(alloc, text, refusal), "{text}");
    }
}

/// A program in assembly that uses many of the forms that a user may write.
const WRITTEN: &str =
    "start: lddw r1, -1 ; wide\n\n mov.w r2 ,-1\nback:add r1, r2\nstxd [r10-8], r1\nstd [r10-0x10], 5\nldd r3,[r10]\n\
     jsgt.w r1, -3, end\nja back\ncall send\nend:exit\n";

/// The program `WRITTEN` as the disassembler prints it.
const PRINTED: &str =
    "lddw r1, 18446744073709551615\nmov.w r2, -1\nadd r1, r2\nstxd [r10-8], r1\nstd [r10-16], 5\nldd r3, [r10+0]\n\
     jsgt.w r1, -3, +2\nja -6\ncall 6\nexit\n";

/// Checks whether the disassembler writes a program as the text `expected`.
fn is_disassembled(alloc: Global, program: &Program, expected: &str) -> bool {
    match disassemble(alloc, program) {
        Ok(text) => text.as_str() == expected,
        Err(_) => false,
    }
}

/// Checks whether a text assembles to a program that the disassembler writes as `expected`.
fn is_printed_as(alloc: Global, text: &str, expected: &str) -> bool {
    match assemble(alloc, text) {
        Ok(program) => is_disassembled(alloc, &program, expected),
        Err(_) => false,
    }
}

#[test]
fn programs_are_printed_in_one_form(rt: HostRuntime) {
    assert!(rt; is_printed_as(rt.alloc(), WRITTEN, PRINTED));
}
