//! The request that the words of a command line spell.
//!
//! Proved: each command line of the defined form is the request that the definition gives.
#![tactic(auto)]

pub mod asking;
pub mod draw_options;
pub mod exploring;
pub mod reporting;
pub mod request;
