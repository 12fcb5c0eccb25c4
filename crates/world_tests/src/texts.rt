//! Defines the texts of the campaigns in these tests: their keys, and the tables of their traitors.

use crate::{campaign, counting, swaying};

/// The keys of a campaign of four generals, with bound 1. General 0 commands, and his order is 1.
pub(crate) const FOUR: &str = "generals = 4\nbound = 1\ncommander = 0\norder = 1\n";

/// The keys of a campaign of four generals, with bound 1 and a patience of two steps. General 0 commands, and his order
/// is 1.
pub(crate) const FOUR_AND_TWO_STEPS: &str =
    "generals = 4\nbound = 1\ncommander = 0\norder = 1\npatience = 2\n";

/// The keys of a campaign of four generals, with bound 1 and a patience of three steps. General 0 commands, and his
/// order is 1.
pub(crate) const FOUR_AND_THREE_STEPS: &str =
    "generals = 4\nbound = 1\ncommander = 0\norder = 1\npatience = 3\n";

/// The keys of a campaign of four generals, with bound 1 and the rule of the majority. General 0 commands, and his
/// order is 0.
pub(crate) const FOUR_BY_MAJORITY: &str =
    "generals = 4\nbound = 1\ncommander = 0\norder = 0\nrule = \"majority\"\n";

/// The keys of a campaign of four generals, with bound 1 and the rule of the median. General 0 commands, and his order
/// is 0.
pub(crate) const FOUR_BY_MEDIAN: &str =
    "generals = 4\nbound = 1\ncommander = 0\norder = 0\nrule = \"median\"\n";

/// The keys of a campaign of four generals, with bound 1. General 0 commands, and the four bytes of his order are
/// different.
pub(crate) const FOUR_OF_BYTES: &str = "generals = 4\nbound = 1\ncommander = 0\norder = 16909060\n";

/// The keys of a campaign of two loyal generals, with bound 0. General 0 commands, and his order is 7.
pub(crate) const TWO_LOYAL: &str = "generals = 2\nbound = 0\ncommander = 0\norder = 7\n";

/// The keys of a campaign of three generals, with bound 1 and the rule of the majority. General 0 commands, and his
/// order is 1.
pub(crate) const THREE_BY_MAJORITY: &str =
    "generals = 3\nbound = 1\ncommander = 0\norder = 1\nrule = \"majority\"\n";

/// The keys of a campaign of three generals, with bound 1 and the rule of the median. General 0 commands, and his order
/// is 1.
pub(crate) const THREE_BY_MEDIAN: &str =
    "generals = 3\nbound = 1\ncommander = 0\norder = 1\nrule = \"median\"\n";

/// The keys of a signed campaign of three generals, with bound 1. General 0 commands, and his order is 1.
pub(crate) const THREE_SIGNED: &str =
    "generals = 3\nbound = 1\ncommander = 0\norder = 1\nmessages = \"signed\"\n";

/// The keys of a campaign of five generals, with bound 2. General 1 commands, and his order is 6.
pub(crate) const FIVE: &str = "generals = 5\nbound = 2\ncommander = 1\norder = 6\n";

/// The keys of a campaign of seven generals, with bound 2. General 0 commands, and his order is 0.
pub(crate) const SEVEN: &str = "generals = 7\nbound = 2\ncommander = 0\norder = 0\n";

/// The keys of a campaign of seven generals, with bound 2 and a patience of two steps. General 0 commands, and his
/// order is 0.
pub(crate) const SEVEN_AND_TWO_STEPS: &str =
    "generals = 7\nbound = 2\ncommander = 0\norder = 0\npatience = 2\n";

/// The keys of a campaign of seven generals, with bound 2 and a patience of three steps. General 0 commands, and his
/// order is 0.
pub(crate) const SEVEN_AND_THREE_STEPS: &str =
    "generals = 7\nbound = 2\ncommander = 0\norder = 0\npatience = 3\n";

/// The keys of a campaign of seven generals, with bound 2 and a board whose word 0 is 5 at first. General 0 commands,
/// and his order is 0.
pub(crate) const SEVEN_ON_A_BOARD: &str =
    "generals = 7\nbound = 2\ncommander = 0\norder = 0\nboard = [5]\n";

/// The keys of a campaign of seven generals, with bound 2 and a patience of sixteen steps. General 0 commands, and his
/// order is 0.
pub(crate) const SEVEN_AND_SIXTEEN_STEPS: &str =
    "generals = 7\nbound = 2\ncommander = 0\norder = 0\npatience = 16\n";

/// Makes general 3 a traitor who sends generals 1 and 2 the order to retreat. His program has seven instructions.
pub(crate) const SWAYING: &str = swaying!(campaign "exit\n", "", [3]);

/// Makes general 3 a traitor who sends general 1 the order to attack and general 2 the order to retreat. His program
/// has seven instructions.
pub(crate) const TORN: &str = "[[traitor]]
general = 3
asm = '''
mov r1, 1
mov r2, 1
call sway
mov r1, 2
mov r2, 0
call sway
exit
'''
";

/// Makes general 2 a traitor who sends general 1 the order to retreat.
pub(crate) const LYING: &str = "[[traitor]]
general = 2
asm = '''
mov r1, 1
mov r2, 0
call sway
exit
'''
";

/// Makes general 2 a traitor who sends general 4 the order 9.
pub(crate) const NINE_FOR_FOUR: &str = "[[traitor]]
general = 2
asm = '''
mov r1, 4
mov r2, 9
call sway
exit
'''
";

/// Makes the commander, general 0, a traitor who sends general 1 the order 7 and the others nothing.
pub(crate) const SEVEN_FOR_ONE: &str = "[[traitor]]
general = 0
asm = '''
mov r1, 1
mov r2, 7
call sway
exit
'''
";

/// Makes the commander, general 0, a traitor who sends generals 1 and 3 the order to attack and general 2 the order to
/// retreat.
pub(crate) const TWO_FACED: &str = "[[traitor]]
general = 0
asm = '''
mov r1, 1
mov r2, 1
call sway
mov r1, 2
mov r2, 0
call sway
mov r1, 3
mov r2, 1
call sway
exit
'''
";

/// Makes the commander, general 0, a traitor who sends general 1 the order to attack, general 2 the order to retreat,
/// and general 3 nothing.
pub(crate) const SILENT_TO_ONE: &str = "[[traitor]]
general = 0
asm = '''
mov r1, 1
mov r2, 1
call sway
mov r1, 2
mov r2, 0
call sway
exit
'''
";

/// Makes the commander, general 0, a traitor who sends generals 1, 2 and 3 their own numbers as orders.
pub(crate) const NUMBERING: &str = "[[traitor]]
general = 0
asm = '''
mov r1, 1
mov r2, 1
call sway
mov r1, 2
mov r2, 2
call sway
mov r1, 3
mov r2, 3
call sway
exit
'''
";

/// Makes generals 0 and 4 traitors. Each adds 1 to word 0 of the board, and sends generals 1, 2 and 3 the last bit of
/// the word's old value as their order.
pub(crate) const COLLUDING: &str = counting!(campaign "exit\n", "", [0, 4]);

/// Makes generals 0 and 4 traitors. Each adds 1 to word 0 of the board, sends generals 1, 2 and 3 the last bit of the
/// word's old value as their order, and then reads word 63. The program takes seventeen steps.
pub(crate) const COLLUDING_AND_LOOKING: &str =
    counting!(campaign "mov r1, 63\ncall board_get\nexit\n", "", [0, 4]);

/// Makes all seven generals traitors. Each adds 1 to word 0 of the board, and sends generals 1, 2 and 3 the last bit of
/// the word's old value as their order.
pub(crate) const SEVEN_ADDERS: &str = counting!(campaign "exit\n", "", [0, 1, 2, 3, 4, 5, 6]);

/// Makes generals 5 and 6 traitors. Each sets the word of his own number to 1, and then reads the other's word.
pub(crate) const SETTING: &str = "[[traitor]]
general = 5
asm = '''
mov r1, 5
mov r2, 1
call board_swap
mov r1, 6
call board_get
exit
'''
[[traitor]]
general = 6
asm = '''
mov r1, 6
mov r2, 1
call board_swap
mov r1, 5
call board_get
exit
'''
";

/// Makes generals 0 and 4 traitors. Each reads three words of the board.
pub(crate) const LOOKING: &str = "[[traitor]]
general = 0
asm = '''
mov r1, 0
call board_get
mov r1, 1
call board_get
mov r1, 2
call board_get
exit
'''
[[traitor]]
general = 4
asm = '''
mov r1, 0
call board_get
mov r1, 1
call board_get
mov r1, 2
call board_get
exit
'''
";

/// Makes general 5 a traitor who swaps word 5 of the board for 1, and then reads word 6. His program takes six steps.
pub(crate) const SPYING: &str = "[[traitor]]
general = 5
asm = '''
mov r1, 5
mov r2, 1
call board_swap
mov r1, 6
call board_get
exit
'''
";

/// Makes general 2 a traitor who passes on his first chain to general 1. His program has four instructions.
pub(crate) const PASSING: &str = "[[traitor]]
general = 2
asm = '''
mov r1, 0
mov r2, 2
call pass_on
exit
'''
";

/// Makes the commander, general 0, a traitor who signs order 1 for general 1 and order 0 for general 2. His program has
/// seven instructions.
pub(crate) const SIGNING_TWICE: &str = "[[traitor]]
general = 0
asm = '''
mov r1, 1
mov r2, 2
call sign_order
mov r1, 0
mov r2, 4
call sign_order
exit
'''
";
