//! `Pool`: one worker pool of a machine, lent for reading. A machine keeps its work items once for all
//! pools, so a pool owns nothing.
//!
//! Proved: a pool that is lent for reading is its part of the machine's state.
#![tactic(auto)]

mod pool;

pub use pool::Pool;
