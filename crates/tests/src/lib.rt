//! Tests of the lower crates: words, ranges, labels, trees, message tables, memory cells, the board, outboxes, programs
//! and their activations, and cuts of text. The tests have a crate of their own because a crate that contains tests is
//! proved twice.
#![tactic(auto)]

#[cfg(test)]
mod activations;
#[cfg(test)]
mod assembly;
#[cfg(test)]
mod boards;
#[cfg(test)]
mod bytecode;
#[cfg(test)]
mod cells;
#[cfg(test)]
mod cuts;
#[cfg(test)]
mod edges;
#[cfg(test)]
mod helpers;
#[cfg(test)]
mod known_bits;
#[cfg(test)]
mod labels;
#[cfg(test)]
mod outboxes;
#[cfg(test)]
mod programs;
#[cfg(test)]
mod ranges;
#[cfg(test)]
mod tables;
#[cfg(test)]
mod trees;
#[cfg(test)]
mod words;
