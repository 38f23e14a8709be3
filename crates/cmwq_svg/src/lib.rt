//! A picture as SVG, for a browser without scripts, on a light or a dark background.
//!
//! Proved: the picture as SVG, to the byte. Exactly one rectangle covers each cell that isn't empty.
//! Not proved: how a browser shows it.
#![tactic(auto)]

mod act_marks;
mod bar_titles;
mod bars;
mod document;
pub mod examples;
mod frame;
mod keys;
pub mod laws;
mod layout;
mod shapes;
mod style;

pub use document::svg;
