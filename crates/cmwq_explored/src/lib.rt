//! `explore`: from a scenario's text to an interleaving that breaks the rule, written as a scenario, or
//! to the sentence that none does.
//!
//! Proved: `explore` writes the interleaving that it found as a scenario that shows it, or the line of the answer, or returns the fault.
#![tactic(auto)]

mod answers;
mod asking;
mod error;
mod exploring;
mod found;
mod outcome;
mod steps;

pub use error::ExploreError;
pub use exploring::explore;
pub use outcome::Outcome;
