//! `run --tell`: each instruction, its reply, and the changes that the reply doesn't mention.
//!
//! Proved: `run --tell` writes exactly the defined bytes, or returns the fault.
#![tactic(auto)]

mod change;
mod come;
pub mod examples;
mod hidden_changes;
pub mod laws;
mod told;
mod told_run;

pub use told_run::run_told;
