//! Laws of a run's trace: its phases, its events, and the file of these. Each function's contract is a
//! law, and its body is empty. No other crate depends on this one.
//!
//! Proved: laws: no phase is empty, and phases of one thread don't overlap. Phases that burn have the ticks of the body. Time never falls in the events, and executions of one task don't overlap. Reading the file gives the events of the run again.
#![tactic(auto)]

pub mod events;
pub mod file;
pub mod phases;
