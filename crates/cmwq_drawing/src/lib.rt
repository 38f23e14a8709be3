//! Options of a drawing. Types alone.
//!
//! Proved: nothing. It has types only: the options of a picture.
#![tactic(auto)]

mod drawing;

pub use drawing::{Drawing, Form, Span, Style};
