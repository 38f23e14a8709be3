//! Why a work item waits, and which work item or worker it waits for. Both are read from one state.
//!
//! Proved: laws: each reason why a work item waits is given exactly when its condition is true.
#![tactic(auto)]

pub mod laws;
mod reason;

pub use reason::{Instance, Reason, Turn};
