//! A run as a scenario's text: a listing whose one caller issues the run's instructions, with notes as
//! comments.
//!
//! Proved: comments after a listing change nothing of its scenario. A scenario with one given caller is as defined.
#![tactic(auto)]

mod acting;
pub mod laws;
mod reply_numbers;

pub use acting::acted;
pub use reply_numbers::fit;
