//! `draw`: from a scenario's text to a picture of its run, as text or as SVG.
//!
//! Proved: `draw` writes exactly the defined bytes, or returns the fault. The hints of a picture are the lines of `why`.
#![tactic(auto)]

mod drawing_run;
pub mod examples;
mod hinting;
mod picking;
mod rendering;
mod span_end;
mod walking;

pub use drawing_run::draw;
pub use picking::undeclared;
pub use rendering::drawing_of;
pub use walking::hints;
