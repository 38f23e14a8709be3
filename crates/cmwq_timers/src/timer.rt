//! One timer.

use cmwq_types::WorkId;

/// A delayed work's timer: when it is due, and the CPU on which the work is then placed.
#[derive(Clone, Copy, PartialEq, Eq)]
pub struct Timer {
    /// The tick at which it is due.
    pub due: u64,
    /// When the work was queued: of two timers that are due at one tick the one of lesser stamp fires first.
    pub stamp: u64,
    pub work: WorkId,
    pub cpu: u8,
}
