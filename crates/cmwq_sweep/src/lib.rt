//! `times --sweep`: the results of a scenario's run for several values of a queue's `max_active`.
//!
//! Proved: `times --sweep` writes exactly the defined bytes, or returns the fault.
#![tactic(auto)]

mod error;
pub mod examples;
mod sweep_row;
mod sweeping;
mod trial;

pub use error::SweepError;
pub use sweep_row::SweepRow;
pub use sweeping::sweep;
