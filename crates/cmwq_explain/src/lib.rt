//! `why`: why a work item waits, or what a flush waits for, at the positions that the question names.
//!
//! Proved: `why` writes exactly the defined bytes, or returns the fault.
#![tactic(auto)]

mod answering;
mod changes;
pub mod examples;
mod explaining;
pub mod laws;
mod looker;
mod said;
mod sayer;

pub use explaining::why;
