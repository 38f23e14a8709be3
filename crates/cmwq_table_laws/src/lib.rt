//! Laws of single rows of the instruction table: how often a work item is disabled, its pool, and
//! instructions that repeat.
//!
//! Proved: laws: disables and enables add up. They give the pool of a placed work item, and the effect of a body's `delay`, `mod` and `cancel`.
#![tactic(auto)]

pub mod examples;
pub mod laws;
