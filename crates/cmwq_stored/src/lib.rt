//! The bytes of a state that `explore` compares and hashes.
//!
//! Proved: two stored states are equal only if the whole states are equal.
#![tactic(auto)]

pub mod laws;
mod packing;
mod stored;

pub use stored::Stored;
