//! The pending work items of a machine. It finds the first one of a kind, and counts them, without a
//! scan.
//!
//! Proved: the pending work items are the table's map, and each lookup has its answer.
#![tactic(auto)]

mod indexes;
mod places;
mod pools;
mod queued_works;

pub use pools::MAX_POOLS;
pub use queued_works::QueuedWorks;
