//! Callers in threads of their own, over one shared machine.
//!
//! Proved: `enact` leaves one history. It interleaves the instructions of the callers, and keeps the order of each caller.
//! Not proved: that all callers run at the same time.
#![tactic(auto)]

mod begin;
mod enacting;
mod ending;
pub mod examples;
mod gate;
mod part;
mod threads;

pub use enacting::{Enactment, enact};
pub use ending::Ending;
pub use gate::{Gate, OpenGate};
