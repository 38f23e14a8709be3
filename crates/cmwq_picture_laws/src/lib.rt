//! The law that a picture shows an instance burning as often as its body says; and worked examples of
//! pictures. No other crate depends on this one.
//!
//! Proved: laws: a picture shows as many burns as the body says. It has a timer's mark exactly at a tick at which a body set a timer.
#![tactic(auto)]

pub mod burning;
pub mod drawings;
pub mod folding;
pub mod laws;
pub mod pictures;
