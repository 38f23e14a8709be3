//! `times`: where the time of a run's instances went, one line each.
//!
//! Proved: `times` writes exactly the defined bytes, or returns the fault.
#![tactic(auto)]

mod clerk;
pub mod examples;
mod rows;
mod sums;
mod timing;
mod whom;

pub use timing::times;
