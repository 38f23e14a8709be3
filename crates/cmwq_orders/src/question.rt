//! What is asked of all orders: that none comes to a certain kind of state.

use cmwq_types::WorkId;

/// A kind of state to which no order is to come. Actors are named by their numbers, from 0.
#[derive(Clone, Copy, PartialEq, Eq)]
pub enum Question {
    /// The actor has ended, and the work is pending or runs.
    After {
        /// Who has ended.
        actor: u8,
        /// What is pending or runs then.
        work: WorkId,
    },
    /// The work runs.
    Never(WorkId),
    /// The two works run at once.
    Together(WorkId, WorkId),
    /// Steps are left, some actor hasn't ended, and nothing can go on.
    Stuck,
}
