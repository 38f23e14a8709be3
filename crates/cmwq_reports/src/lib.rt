//! Options of `times` and `trace`. Types alone.
//!
//! Proved: nothing. It has types only: the options of `times` and `trace`.
#![tactic(auto)]

mod report;

pub use report::{Format, LimitRange, MOST_LIMITS, Sweep, Times, TraceForm};
