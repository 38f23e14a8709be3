//! What is told of an instance.

use crate::account::Account;
use cmwq_types::{Place, WorkId};

/// What became of an instance.
#[derive(Clone, Copy, PartialEq, Eq)]
pub enum Fate {
    /// It ran to the end of its body.
    Finished,
    /// It was pending, and was taken off.
    Cancelled,
    /// It is still pending, in this place.
    StillPending(Place),
    /// It still runs.
    StillRunning,
}

/// What is told of an instance when it has ended, or at the end of a run.
#[derive(Clone, Copy, PartialEq, Eq)]
pub struct TimesLine {
    /// The time at which it is told, in ticks.
    pub time: u64,
    /// The instance's work.
    pub work: WorkId,
    /// What became of it.
    pub fate: Fate,
    /// Since when it was there, and where its time went.
    pub account: Account,
}
