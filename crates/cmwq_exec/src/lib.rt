//! The instruction table as a program, written once for every machine. `Driven` is a machine over any
//! structure that has `Parts`.
//!
//! Proved: `exec` is the instruction table, in reply and in state. `go` is a number of `next` up to the first line, and `again` a repetition. `load`, `copy` and `look` are as defined.
#![tactic(auto)]

mod answer;
mod disabling;
mod driven;
mod flushing;
mod performing;
mod repeating;

pub use driven::Driven;
