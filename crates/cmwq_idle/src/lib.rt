//! The workers of a machine's pools: how many each pool has created, and which are idle, the last one
//! first.
//!
//! Proved: the idle workers are the table's. A pool that a change doesn't reach keeps its next move.
#![tactic(auto)]

mod far;
mod idle_workers;
mod link;

pub use far::far_pools_stay;
pub use idle_workers::IdleWorkers;
