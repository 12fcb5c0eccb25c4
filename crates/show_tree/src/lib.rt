//! Draws the tree of the messages that a lieutenant received (Lynch, Distributed Algorithms, section 6.2). It draws
//! lines of text, a graph for Graphviz, or SVG.
#![tactic(auto)]

mod children;
mod facts;
mod form;
mod graph;
mod laws;
mod legend;
mod lines;
mod node;
mod places;
mod rows;
mod shown_labels;
mod svg;
mod table_tree;
mod words;

pub use facts::{mark_at, node_at};
pub use form::TreeForm;
pub use graph::tree_graph;
pub use laws::{folds_are_alike, outcomes_are_explained, pictures_are_elements};
pub use lines::tree_text;
pub use node::{Branch, Extent, Node, Style, Trust, View};
pub use shown_labels::{deeper, is_open, nodes, ordered, root_node};
pub use svg::tree_svg;
pub use table_tree::{drawn, tree_drawn};
pub use words::put_said;
