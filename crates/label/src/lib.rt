//! Defines labels of relayed orders: their lists and ranks, and the algorithm OM(m) over them. The files in specs/
//! have the definitions.
#![tactic(auto)]

mod label;
mod laws;
mod mask;
mod ranking;
mod shape;
mod space;

pub use label::Label;
pub use laws::{
    children_stand, decisions_read_own, labels_are_counted, labels_are_exact, labels_ascend,
    labels_differ, levels_decide,
};
pub use ranking::{count, rank, unrank};
pub use shape::Shape;
pub use space::{LabelError, Space};
