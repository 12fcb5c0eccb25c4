//! Draws a campaign with signed messages as a space-time diagram in SVG. It has a column for each general and the
//! board, and a band for each round. Strokes (lines between columns) show the chains that the generals send each other.
#![tactic(auto)]

mod bands;
mod chain_filter;
mod foot;
mod laws;
mod legend;
mod order;
mod owed_chains;
mod signed_order;
mod stroke;
mod strokes;
mod svg;
mod unaccepted;
mod words;

pub use foot::bound_words;
pub use laws::{
    only_traitors_differ, rows_are_exact, signed_diagrams_are_elements, strokes_are_exact,
};
pub use svg::{put_signed_words, signed_campaign_svg};
pub use unaccepted::put_unaccepted;
