//! The instructions of a run, one after another.
//!
//! Proved: `Instructions` gives the instructions of a run in order, each as often as its line says.
#![tactic(auto)]

mod instructions;
mod issuing;
mod room;

pub use instructions::{Instructions, expanded};
pub use issuing::issue_all;
pub use room::room_behind;
