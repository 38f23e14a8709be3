//! `Parts`, the data structure of a machine, and `Going`, a machine in the middle of an instruction. It
//! has the steps of which instructions are made: placing work items, filling pools, limits, and moves
//! of pools.
//!
//! Proved: each single change of a machine is the change of the table, over any structure.
#![tactic(auto)]

mod going;
mod max_active;
mod parts;
mod placing;
mod pool_moves;
mod pool_set;

pub use going::Going;
pub use parts::Parts;
pub use pool_moves::Found;
pub use pool_set::PoolSet;
