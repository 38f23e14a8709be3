//! `trace --text`, a run as the file `/sys/kernel/tracing/trace` shows it; and `trace --dat`, the file
//! `trace.dat`.
//!
//! Proved: `trace --text` and `trace --dat` write exactly the defined bytes, or return the fault. It has worked examples.
//! Not proved: what a viewer shows.
#![tactic(auto)]

mod columns;
mod data_trace;
mod event_line;
mod events_text;
pub mod examples;
mod recording;
mod text_trace;

pub use data_trace::trace_dat;
pub use text_trace::trace_text;
