//! The law that an instance of a work item burns as many ticks as its body says.
//!
//! Proved: the law that an instance burns as many ticks as its body says.
#![tactic(auto)]

pub mod examples;
pub mod laws;
