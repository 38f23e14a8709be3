//! `trace --json`: a run in the trace event format, for Perfetto and `chrome://tracing`; and `trace
//! --lines`: one line of JSON per printed line.
//!
//! Proved: `trace --json` and `trace --lines` write exactly the defined bytes, or return the fault. It has worked examples.
//! Not proved: what a viewer shows.
#![tactic(auto)]

pub mod examples;
mod fields;
mod json_head;
mod json_line;
mod json_run;
mod json_threads;
mod json_trace;
mod line_trace;
pub mod object_examples;
mod seat;

pub use json_trace::trace_json;
pub use line_trace::trace_lines;
