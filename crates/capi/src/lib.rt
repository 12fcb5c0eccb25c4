//! The functions that a C program can call: the verifier, the machine, explanations and assembly. The header
//! share/byzlab_sandbox.h declares them. The contract of each states the whole result, also what the functions that it
//! calls promise.
#![tactic(auto)]

mod answer;
mod buffer;
mod decoder;
mod fault;
mod fault_place;
mod helpers;
mod host;
mod kept;
mod loaded;
mod loads;
mod messages;
mod object_exports;
mod object_fault;
mod outcome;
mod padded;
mod parts;
mod place;
mod refusal;
mod running;
mod runs;
mod serving;
mod status;
mod text_exports;
mod verdict;
mod version;
mod words;
