//! What a history is made of, and where it begins.

use cmwq_types::{Instr, Reply, Scenario};
use thiserror::Error;

/// Where a history begins. Contracts alone speak of it.
#[derive(Drop)]
pub struct Setting {
    /// The scenario that was loaded.
    pub scenario: Scenario,
    /// How many entries the history has room for.
    pub capacity: u32,
}

/// An instruction that was issued, and what it came to.
#[derive(Clone, Copy, PartialEq, Eq)]
pub struct Entry {
    /// The ticket under which it was issued. Tickets rise along a history.
    pub ticket: u64,
    /// The number of the caller that issued it.
    pub caller: u32,
    /// The instruction.
    pub instr: Instr,
    /// What the machine answered.
    pub reply: Reply,
}

/// The history has no room for one more entry.
#[derive(Clone, Copy, Debug, PartialEq, Eq, Error)]
#[error("full")]
pub struct Full;
