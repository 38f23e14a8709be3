//! The most pools.

use cmwq_types::MAX_CPUS;

/// The most worker pools of a machine: two for each CPU, and two unbound ones.
pub const MAX_POOLS: u8 = 2 * MAX_CPUS + 2;
