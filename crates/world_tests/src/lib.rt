//! Tests of worlds and threads that need calls from code: single events, letters and contexts, activations, replays,
//! randomly changed texts, gates, the post, and letters against the ledger. The crate `rows` tests what the whole
//! program prints.
//!
//! The macros make texts of campaigns from traitors' programs, for these tests and for `bench`. They are macros because
//! a constant text can be joined only from literals.
#![tactic(auto)]

#[cfg(test)]
mod chronicles;
#[cfg(test)]
mod gates;
#[cfg(test)]
mod ledger_letters;
#[cfg(test)]
mod lives;
#[cfg(test)]
mod musters;
#[cfg(test)]
mod posts;
#[cfg(test)]
mod replays;
#[cfg(test)]
mod rounds;
#[cfg(test)]
mod scenarios;
#[cfg(test)]
mod signed_musters;
#[cfg(test)]
mod signed_worlds;
#[cfg(test)]
mod texts;
#[cfg(test)]
mod threaded_campaigns;
#[cfg(test)]
mod worlds;

/// Passes a program's beginning to the macro `$form`, followed by `$words`. The beginning adds 1 to word 0 of the
/// board, and sends generals 1, 2 and 3 the last bit of the word's old value as their order.
#[macro_export]
macro_rules! counting {
    ($form:ident $($words:tt)*) => {
        $form!("mov r1, 0
mov r2, 1
call board_add
mov r6, r0
and r6, 1
mov r1, 1
mov r2, r6
call sway
mov r1, 2
mov r2, r6
call sway
mov r1, 3
mov r2, r6
call sway
", $($words)*)
    };
}

/// Passes a program's beginning to the macro `$form`, followed by `$words`. The beginning sends generals 1 and 2 the
/// order to retreat.
#[macro_export]
macro_rules! swaying {
    ($form:ident $($words:tt)*) => {
        $form!("mov r1, 1
mov r2, 0
call sway
mov r1, 2
mov r2, 0
call sway
", $($words)*)
    };
}

/// Joins the text of a campaign: its keys, and a traitor's table for each of the given generals. Each traitor's program
/// is `$program` followed by `$ending`.
#[macro_export]
macro_rules! campaign {
    ($program:literal, $ending:literal, $keys:literal, [$($general:literal),*]) => {
        concat!($keys $(, "[[traitor]]\ngeneral = ", $general, "\nasm = '''\n", $program, $ending, "'''\n")*)
    };
}
