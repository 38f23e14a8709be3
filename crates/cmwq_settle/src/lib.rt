//! Settling a scenario: how many `next` it needs until no work item is pending or running.
//!
//! Proved: `settle` writes exactly the defined bytes, or returns the fault.
#![tactic(auto)]

mod counting;
pub mod examples;
mod extending;
pub mod laws;
mod settled_run;
mod settling;
mod watch;

pub use settled_run::run_settled;
pub use settling::{settle_text, settled, settled_if};
