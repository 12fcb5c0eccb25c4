//! Draws a campaign as a space-time diagram in SVG. The diagram has a column for each general, one for the board, and
//! a band for each round. Other crates use its public modules to draw other kinds of campaigns.
#![tactic(auto)]

pub mod bands;
mod facts;
pub mod foot;
mod laws;
pub mod layout;
pub mod legend;
mod lists;
mod mark;
pub mod order;
pub mod overflow;
pub mod shapes;
mod stroke;
pub mod svg;
mod told_order;
mod told_orders;
pub mod words;

pub use facts::strokes;
pub use laws::{diagrams_are_elements, only_traitors_differ, rows_are_exact, strokes_are_exact};
pub use mark::DiagramMarks;
pub use stroke::{Stroke, StrokePath};
pub use svg::campaign_svg;
pub use words::put_access_words;
