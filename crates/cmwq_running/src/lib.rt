//! The running work items of a machine, and its time. Contracts describe them by the table's map of
//! running work items at that time.
//!
//! Proved: the running work items at the machine's time are the table's map, and each lookup has its answer.
#![tactic(auto)]

mod changing;
mod ending;
mod pacing;
mod running_works;

pub use running_works::RunningWorks;
