//! `play`: callers in threads, and the interleaving that they took as a scenario with one caller, which
//! can be run.
//!
//! Proved: `play` writes the scenario of an interleaving, and its comments are the lines of its run.
//! Not proved: that callers run at the same time.
#![tactic(auto)]

mod commenting;
pub mod laws;
mod leaving;
mod playing;

pub use leaving::played_text;
pub use playing::play;
