//! A lieutenant's tree of the orders that he received (Lynch, Distributed Algorithms, section 6.2). For each length of
//! labels it has flat arrays, indexed by the rank of the label.
#![tactic(auto)]

mod level;
mod tree;

pub use tree::Tree;
