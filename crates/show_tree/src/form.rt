//! Defines the output forms of a lieutenant's tree: lines of text, a Graphviz graph, or SVG.
use crate::node::Style;

/// The form in which a lieutenant's tree is drawn.
#[derive(Clone, Copy, Drop)]
pub enum TreeForm {
    /// Lines of text.
    Lines(Style),
    /// A graph for the program `dot` of Graphviz.
    Graph,
    /// A picture in SVG.
    Svg,
}
