//! The grammar of a scenario's text: which texts spell which scenario, and where the first fault of a
//! text is. Laws of these definitions are functions with empty bodies.
//!
//! Proved: laws: a text spells at most one scenario. They give the line and the reason of its first fault.
#![tactic(auto)]

pub mod examples;
pub mod laws;
mod next;
mod why;

pub use next::Next;
pub use why::Why;
