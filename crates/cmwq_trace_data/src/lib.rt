//! `trace.dat`, version 6: the file that `trace-cmd report` and KernelShark open.
//!
//! Proved: `trace_data`: the file for `trace-cmd` has the bytes of its definition.
//! Not proved: what the readers of the file show.
#![tactic(auto)]

mod entry;
pub mod examples;
mod head;
pub mod laws;
mod numbers;
mod open_page;
mod texts;
mod trace_file;

pub use trace_file::{TraceData, trace_data};
