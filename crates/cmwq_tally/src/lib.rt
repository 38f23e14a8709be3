//! Counts of work items by class, updated when a work item changes its class.
//!
//! Proved: the counts are the sums over the classes.
//! Not proved: their speed.
#![tactic(auto)]

pub mod laws;
mod tally;

pub use tally::Tally;
