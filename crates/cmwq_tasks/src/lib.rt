//! Commands on one input. Types alone.
//!
//! Proved: nothing. It has types only: what a command does with an input.
#![tactic(auto)]

mod task;

pub use task::{RunKind, Task};
