//! Slices of a run: phases, in which an instance does one thing, and executions, from the start of an
//! instance to its end.
//!
//! Proved: `Phases` and `Executions`: what an instance does, and who executes it, with the first and the last tick.
#![tactic(auto)]

mod doing;
mod executions;
mod heads;
mod phases;

pub use doing::{Doing, Half};
pub use executions::{Execution, Executions, OpenExecution};
pub use phases::{OpenPhase, PhaseSlice, Phases, WorkPhases};
