//! Lists the strategies. Written by checks/generate from examples/strategies, without the programs' comments.

/// The name of each strategy, ascending, and its program in assembly.
pub const STRATEGIES: [(&str, &str); 14] = [
    (
        "alternates",
        "ldw r7, [r1+16]
and r7, 1
mov r6, 0
mov r1, r6
mov r2, r7
call sway
add r6, 1
mov r1, r6
mov r2, r7
call sway
add r6, 1
mov r1, r6
mov r2, r7
call sway
add r6, 1
mov r1, r6
mov r2, r7
call sway
add r6, 1
mov r1, r6
mov r2, r7
call sway
add r6, 1
mov r1, r6
mov r2, r7
call sway
add r6, 1
mov r1, r6
mov r2, r7
call sway
add r6, 1
mov r1, r6
mov r2, r7
call sway
add r6, 1
mov r1, r6
mov r2, r7
call sway
add r6, 1
mov r1, r6
mov r2, r7
call sway
add r6, 1
mov r1, r6
mov r2, r7
call sway
add r6, 1
mov r1, r6
mov r2, r7
call sway
add r6, 1
mov r1, r6
mov r2, r7
call sway
add r6, 1
exit
",
    ),
    (
        "always_attacks",
        "mov r7, 1
mov r6, 0
mov r1, r6
mov r2, r7
call sway
add r6, 1
mov r1, r6
mov r2, r7
call sway
add r6, 1
mov r1, r6
mov r2, r7
call sway
add r6, 1
mov r1, r6
mov r2, r7
call sway
add r6, 1
mov r1, r6
mov r2, r7
call sway
add r6, 1
mov r1, r6
mov r2, r7
call sway
add r6, 1
mov r1, r6
mov r2, r7
call sway
add r6, 1
mov r1, r6
mov r2, r7
call sway
add r6, 1
mov r1, r6
mov r2, r7
call sway
add r6, 1
mov r1, r6
mov r2, r7
call sway
add r6, 1
mov r1, r6
mov r2, r7
call sway
add r6, 1
mov r1, r6
mov r2, r7
call sway
add r6, 1
mov r1, r6
mov r2, r7
call sway
add r6, 1
exit
",
    ),
    (
        "always_retreats",
        "mov r7, 0
mov r6, 0
mov r1, r6
mov r2, r7
call sway
add r6, 1
mov r1, r6
mov r2, r7
call sway
add r6, 1
mov r1, r6
mov r2, r7
call sway
add r6, 1
mov r1, r6
mov r2, r7
call sway
add r6, 1
mov r1, r6
mov r2, r7
call sway
add r6, 1
mov r1, r6
mov r2, r7
call sway
add r6, 1
mov r1, r6
mov r2, r7
call sway
add r6, 1
mov r1, r6
mov r2, r7
call sway
add r6, 1
mov r1, r6
mov r2, r7
call sway
add r6, 1
mov r1, r6
mov r2, r7
call sway
add r6, 1
mov r1, r6
mov r2, r7
call sway
add r6, 1
mov r1, r6
mov r2, r7
call sway
add r6, 1
mov r1, r6
mov r2, r7
call sway
add r6, 1
exit
",
    ),
    (
        "colludes",
        "mov r0, 0
ldw r2, [r1+20]
jeq r2, 0, out
ldw r8, [r1+0]
sub r8, 1
rsh r8, 1
ldw r2, [r1+12]
jge r2, r8, +1
add r8, 1
mov r7, 1
lsh r7, r8
sub r7, 1
ldw r3, [r1+8]
jeq r3, r2, plan
ldw r7, [r1+32]
and r7, 1
sub r7, 1
plan: and r7, 8191
or r7, 8192
mov r1, 1
mov r2, 0
mov r3, r7
call board_cas
jeq r0, 0, +1
mov r7, r0
mov r6, 0
mov r1, r6
mov r2, r7
and r2, 1
call sway
rsh r7, 1
add r6, 1
mov r1, r6
mov r2, r7
and r2, 1
call sway
rsh r7, 1
add r6, 1
mov r1, r6
mov r2, r7
and r2, 1
call sway
rsh r7, 1
add r6, 1
mov r1, r6
mov r2, r7
and r2, 1
call sway
rsh r7, 1
add r6, 1
mov r1, r6
mov r2, r7
and r2, 1
call sway
rsh r7, 1
add r6, 1
mov r1, r6
mov r2, r7
and r2, 1
call sway
rsh r7, 1
add r6, 1
mov r1, r6
mov r2, r7
and r2, 1
call sway
rsh r7, 1
add r6, 1
mov r1, r6
mov r2, r7
and r2, 1
call sway
rsh r7, 1
add r6, 1
mov r1, r6
mov r2, r7
and r2, 1
call sway
rsh r7, 1
add r6, 1
mov r1, r6
mov r2, r7
and r2, 1
call sway
rsh r7, 1
add r6, 1
mov r1, r6
mov r2, r7
and r2, 1
call sway
rsh r7, 1
add r6, 1
mov r1, r6
mov r2, r7
and r2, 1
call sway
rsh r7, 1
add r6, 1
mov r1, r6
mov r2, r7
and r2, 1
call sway
rsh r7, 1
add r6, 1
out: exit
",
    ),
    (
        "flatters",
        "mov r7, r1
mov r6, 0
mov r8, 4096
ldw r2, [r7+16]
jle r2, 2, begin
mov r8, 0
begin: ldw r9, [r7+20]
ldw r2, [r7+0]
sub r2, 2
div r9, r2
lsh r9, 2
mov r2, r6
and r2, 1
xor r2, 1
ldw r3, [r7+8]
jeq r3, r6, +7
ldw r3, [r7+12]
jeq r3, r6, +5
jgt r8, 4060, +4
mov r3, r7
add r3, r8
ldw r2, [r3+32]
add r8, r9
mov r1, r6
call sway
add r6, 1
mov r2, r6
and r2, 1
xor r2, 1
ldw r3, [r7+8]
jeq r3, r6, +7
ldw r3, [r7+12]
jeq r3, r6, +5
jgt r8, 4060, +4
mov r3, r7
add r3, r8
ldw r2, [r3+32]
add r8, r9
mov r1, r6
call sway
add r6, 1
mov r2, r6
and r2, 1
xor r2, 1
ldw r3, [r7+8]
jeq r3, r6, +7
ldw r3, [r7+12]
jeq r3, r6, +5
jgt r8, 4060, +4
mov r3, r7
add r3, r8
ldw r2, [r3+32]
add r8, r9
mov r1, r6
call sway
add r6, 1
mov r2, r6
and r2, 1
xor r2, 1
ldw r3, [r7+8]
jeq r3, r6, +7
ldw r3, [r7+12]
jeq r3, r6, +5
jgt r8, 4060, +4
mov r3, r7
add r3, r8
ldw r2, [r3+32]
add r8, r9
mov r1, r6
call sway
add r6, 1
mov r2, r6
and r2, 1
xor r2, 1
ldw r3, [r7+8]
jeq r3, r6, +7
ldw r3, [r7+12]
jeq r3, r6, +5
jgt r8, 4060, +4
mov r3, r7
add r3, r8
ldw r2, [r3+32]
add r8, r9
mov r1, r6
call sway
add r6, 1
mov r2, r6
and r2, 1
xor r2, 1
ldw r3, [r7+8]
jeq r3, r6, +7
ldw r3, [r7+12]
jeq r3, r6, +5
jgt r8, 4060, +4
mov r3, r7
add r3, r8
ldw r2, [r3+32]
add r8, r9
mov r1, r6
call sway
add r6, 1
mov r2, r6
and r2, 1
xor r2, 1
ldw r3, [r7+8]
jeq r3, r6, +7
ldw r3, [r7+12]
jeq r3, r6, +5
jgt r8, 4060, +4
mov r3, r7
add r3, r8
ldw r2, [r3+32]
add r8, r9
mov r1, r6
call sway
add r6, 1
mov r2, r6
and r2, 1
xor r2, 1
ldw r3, [r7+8]
jeq r3, r6, +7
ldw r3, [r7+12]
jeq r3, r6, +5
jgt r8, 4060, +4
mov r3, r7
add r3, r8
ldw r2, [r3+32]
add r8, r9
mov r1, r6
call sway
add r6, 1
mov r2, r6
and r2, 1
xor r2, 1
ldw r3, [r7+8]
jeq r3, r6, +7
ldw r3, [r7+12]
jeq r3, r6, +5
jgt r8, 4060, +4
mov r3, r7
add r3, r8
ldw r2, [r3+32]
add r8, r9
mov r1, r6
call sway
add r6, 1
mov r2, r6
and r2, 1
xor r2, 1
ldw r3, [r7+8]
jeq r3, r6, +7
ldw r3, [r7+12]
jeq r3, r6, +5
jgt r8, 4060, +4
mov r3, r7
add r3, r8
ldw r2, [r3+32]
add r8, r9
mov r1, r6
call sway
add r6, 1
mov r2, r6
and r2, 1
xor r2, 1
ldw r3, [r7+8]
jeq r3, r6, +7
ldw r3, [r7+12]
jeq r3, r6, +5
jgt r8, 4060, +4
mov r3, r7
add r3, r8
ldw r2, [r3+32]
add r8, r9
mov r1, r6
call sway
add r6, 1
mov r2, r6
and r2, 1
xor r2, 1
ldw r3, [r7+8]
jeq r3, r6, +7
ldw r3, [r7+12]
jeq r3, r6, +5
jgt r8, 4060, +4
mov r3, r7
add r3, r8
ldw r2, [r3+32]
add r8, r9
mov r1, r6
call sway
add r6, 1
mov r2, r6
and r2, 1
xor r2, 1
ldw r3, [r7+8]
jeq r3, r6, +7
ldw r3, [r7+12]
jeq r3, r6, +5
jgt r8, 4060, +4
mov r3, r7
add r3, r8
ldw r2, [r3+32]
add r8, r9
mov r1, r6
call sway
add r6, 1
exit
",
    ),
    (
        "frames",
        "ldw r7, [r1+32]
xor r7, 1
ldw r9, [r1+16]
ldw r2, [r1+8]
ldw r3, [r1+12]
mov r8, 0
jeq r8, r2, +1
jne r8, r3, +1
add r8, 1
jeq r8, r2, +1
jne r8, r3, +1
add r8, 1
mov r6, 0
mov r1, r6
call honest
jgt r9, 2, +1
jne r6, r8, +4
mov r1, 0
mov r2, r6
mov r3, r7
call send
add r6, 1
mov r1, r6
call honest
jgt r9, 2, +1
jne r6, r8, +4
mov r1, 0
mov r2, r6
mov r3, r7
call send
add r6, 1
mov r1, r6
call honest
jgt r9, 2, +1
jne r6, r8, +4
mov r1, 0
mov r2, r6
mov r3, r7
call send
add r6, 1
mov r1, r6
call honest
jgt r9, 2, +1
jne r6, r8, +4
mov r1, 0
mov r2, r6
mov r3, r7
call send
add r6, 1
mov r1, r6
call honest
jgt r9, 2, +1
jne r6, r8, +4
mov r1, 0
mov r2, r6
mov r3, r7
call send
add r6, 1
mov r1, r6
call honest
jgt r9, 2, +1
jne r6, r8, +4
mov r1, 0
mov r2, r6
mov r3, r7
call send
add r6, 1
mov r1, r6
call honest
jgt r9, 2, +1
jne r6, r8, +4
mov r1, 0
mov r2, r6
mov r3, r7
call send
add r6, 1
mov r1, r6
call honest
jgt r9, 2, +1
jne r6, r8, +4
mov r1, 0
mov r2, r6
mov r3, r7
call send
add r6, 1
mov r1, r6
call honest
jgt r9, 2, +1
jne r6, r8, +4
mov r1, 0
mov r2, r6
mov r3, r7
call send
add r6, 1
mov r1, r6
call honest
jgt r9, 2, +1
jne r6, r8, +4
mov r1, 0
mov r2, r6
mov r3, r7
call send
add r6, 1
mov r1, r6
call honest
jgt r9, 2, +1
jne r6, r8, +4
mov r1, 0
mov r2, r6
mov r3, r7
call send
add r6, 1
mov r1, r6
call honest
jgt r9, 2, +1
jne r6, r8, +4
mov r1, 0
mov r2, r6
mov r3, r7
call send
add r6, 1
mov r1, r6
call honest
jgt r9, 2, +1
jne r6, r8, +4
mov r1, 0
mov r2, r6
mov r3, r7
call send
add r6, 1
exit
",
    ),
    (
        "inverts",
        "ldw r7, [r1+32]
xor r7, 1
mov r6, 0
mov r1, r6
mov r2, r7
call sway
add r6, 1
mov r1, r6
mov r2, r7
call sway
add r6, 1
mov r1, r6
mov r2, r7
call sway
add r6, 1
mov r1, r6
mov r2, r7
call sway
add r6, 1
mov r1, r6
mov r2, r7
call sway
add r6, 1
mov r1, r6
mov r2, r7
call sway
add r6, 1
mov r1, r6
mov r2, r7
call sway
add r6, 1
mov r1, r6
mov r2, r7
call sway
add r6, 1
mov r1, r6
mov r2, r7
call sway
add r6, 1
mov r1, r6
mov r2, r7
call sway
add r6, 1
mov r1, r6
mov r2, r7
call sway
add r6, 1
mov r1, r6
mov r2, r7
call sway
add r6, 1
mov r1, r6
mov r2, r7
call sway
add r6, 1
exit
",
    ),
    (
        "random",
        "lddw r6, 0x9e3779b97f4a7c15
mov r1, 0
mov r2, r6
call board_add
add r0, r6
mov r7, r0
rsh r7, 30
xor r0, r7
lddw r7, 0xbf58476d1ce4e5b9
mul r0, r7
mov r7, r0
rsh r7, 27
xor r0, r7
lddw r7, 0x94d049bb133111eb
mul r0, r7
mov r7, r0
rsh r7, 31
xor r7, r0
mov r6, 0
mov r1, r6
mov r2, r7
and r2, 1
call sway
rsh r7, 1
add r6, 1
mov r1, r6
mov r2, r7
and r2, 1
call sway
rsh r7, 1
add r6, 1
mov r1, r6
mov r2, r7
and r2, 1
call sway
rsh r7, 1
add r6, 1
mov r1, r6
mov r2, r7
and r2, 1
call sway
rsh r7, 1
add r6, 1
mov r1, r6
mov r2, r7
and r2, 1
call sway
rsh r7, 1
add r6, 1
mov r1, r6
mov r2, r7
and r2, 1
call sway
rsh r7, 1
add r6, 1
mov r1, r6
mov r2, r7
and r2, 1
call sway
rsh r7, 1
add r6, 1
mov r1, r6
mov r2, r7
and r2, 1
call sway
rsh r7, 1
add r6, 1
mov r1, r6
mov r2, r7
and r2, 1
call sway
rsh r7, 1
add r6, 1
mov r1, r6
mov r2, r7
and r2, 1
call sway
rsh r7, 1
add r6, 1
mov r1, r6
mov r2, r7
and r2, 1
call sway
rsh r7, 1
add r6, 1
mov r1, r6
mov r2, r7
and r2, 1
call sway
rsh r7, 1
add r6, 1
mov r1, r6
mov r2, r7
and r2, 1
call sway
rsh r7, 1
add r6, 1
exit
",
    ),
    (
        "releases_late",
        "ldw r6, [r1+12]
ldw r7, [r1+16]
ldw r8, [r1+4]
mov r9, 0
jne r6, r9, +1
add r9, 1
jgt r7, r8, send
ldw r9, [r1+8]
jne r9, r6, +1
ldw r9, [r1+0]
sub r9, 1
jne r9, r6, +1
sub r9, 1
send: mov r6, 1
lsh r6, r9
and r6, 8191
mov r1, 1
mov r2, r6
call sign_order
mov r1, 0
mov r2, r6
call pass_on
exit
",
    ),
    (
        "signs_two",
        "ldw r8, [r1+0]
sub r8, 1
rsh r8, 1
ldw r2, [r1+12]
jge r2, r8, +1
add r8, 1
mov r6, 1
lsh r6, r8
sub r6, 1
and r6, 8191
mov r1, 1
mov r2, r6
call sign_order
mov r1, 0
mov r2, r6
xor r2, 8191
call sign_order
exit
",
    ),
    (
        "silent",
        "mov r0, 0
exit
",
    ),
    (
        "splits",
        "ldw r8, [r1+0]
sub r8, 1
rsh r8, 1
ldw r2, [r1+12]
jge r2, r8, +1
add r8, 1
mov r6, 0
mov r1, r6
mov r2, 1
jlt r6, r8, +1
mov r2, 0
call sway
add r6, 1
mov r1, r6
mov r2, 1
jlt r6, r8, +1
mov r2, 0
call sway
add r6, 1
mov r1, r6
mov r2, 1
jlt r6, r8, +1
mov r2, 0
call sway
add r6, 1
mov r1, r6
mov r2, 1
jlt r6, r8, +1
mov r2, 0
call sway
add r6, 1
mov r1, r6
mov r2, 1
jlt r6, r8, +1
mov r2, 0
call sway
add r6, 1
mov r1, r6
mov r2, 1
jlt r6, r8, +1
mov r2, 0
call sway
add r6, 1
mov r1, r6
mov r2, 1
jlt r6, r8, +1
mov r2, 0
call sway
add r6, 1
mov r1, r6
mov r2, 1
jlt r6, r8, +1
mov r2, 0
call sway
add r6, 1
mov r1, r6
mov r2, 1
jlt r6, r8, +1
mov r2, 0
call sway
add r6, 1
mov r1, r6
mov r2, 1
jlt r6, r8, +1
mov r2, 0
call sway
add r6, 1
mov r1, r6
mov r2, 1
jlt r6, r8, +1
mov r2, 0
call sway
add r6, 1
mov r1, r6
mov r2, 1
jlt r6, r8, +1
mov r2, 0
call sway
add r6, 1
mov r1, r6
mov r2, 1
jlt r6, r8, +1
mov r2, 0
call sway
add r6, 1
exit
",
    ),
    (
        "truthful_until_last",
        "ldw r7, [r1+32]
xor r7, 1
ldw r8, [r1+16]
ldw r9, [r1+4]
mov r6, 0
mov r1, r6
call honest
jle r8, r9, +3
mov r1, r6
mov r2, r7
call sway
add r6, 1
mov r1, r6
call honest
jle r8, r9, +3
mov r1, r6
mov r2, r7
call sway
add r6, 1
mov r1, r6
call honest
jle r8, r9, +3
mov r1, r6
mov r2, r7
call sway
add r6, 1
mov r1, r6
call honest
jle r8, r9, +3
mov r1, r6
mov r2, r7
call sway
add r6, 1
mov r1, r6
call honest
jle r8, r9, +3
mov r1, r6
mov r2, r7
call sway
add r6, 1
mov r1, r6
call honest
jle r8, r9, +3
mov r1, r6
mov r2, r7
call sway
add r6, 1
mov r1, r6
call honest
jle r8, r9, +3
mov r1, r6
mov r2, r7
call sway
add r6, 1
mov r1, r6
call honest
jle r8, r9, +3
mov r1, r6
mov r2, r7
call sway
add r6, 1
mov r1, r6
call honest
jle r8, r9, +3
mov r1, r6
mov r2, r7
call sway
add r6, 1
mov r1, r6
call honest
jle r8, r9, +3
mov r1, r6
mov r2, r7
call sway
add r6, 1
mov r1, r6
call honest
jle r8, r9, +3
mov r1, r6
mov r2, r7
call sway
add r6, 1
mov r1, r6
call honest
jle r8, r9, +3
mov r1, r6
mov r2, r7
call sway
add r6, 1
mov r1, r6
call honest
jle r8, r9, +3
mov r1, r6
mov r2, r7
call sway
add r6, 1
exit
",
    ),
    (
        "withholds",
        "ldw r8, [r1+0]
sub r8, 1
rsh r8, 1
ldw r2, [r1+12]
jge r2, r8, +1
add r8, 1
mov r6, 1
lsh r6, r8
sub r6, 1
and r6, 8191
mov r1, 1
mov r2, r6
call sign_order
mov r1, 0
mov r2, r6
call pass_on
exit
",
    ),
];
