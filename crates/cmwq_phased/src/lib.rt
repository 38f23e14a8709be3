//! The running work items of a machine, by phase. It finds the first one of a phase, and counts them,
//! without a scan. It stores when a phase ends, not how much is left.
//!
//! Proved: the running work items by phase, with their end times, are the table's map.
#![tactic(auto)]

mod alarms;
mod classes;
mod counts;
mod lines;
mod phased_works;
mod pools;
mod run;

pub use phased_works::PhasedWorks;
pub use pools::MAX_POOLS;
pub use run::{Phase, Run};
