//! Laws on which instructions change a work item's line of `why`, and worked examples of these lines.
//! No other crate depends on this one.
//!
//! Proved: laws: which steps leave the line of a work item as it is.
//! Not proved: anything about steps that start or finish a work item.
#![tactic(auto)]

pub mod examples;
pub mod laws;
