//! What a worker pool can do next.

use crate::instr::WorkId;

/// The next move of a worker pool.
#[derive(Clone, Copy, PartialEq, Eq)]
pub enum Move {
    /// The work carries out the operation that it has come to.
    Advance(WorkId),
    /// The work's sleep is over.
    Wake(WorkId),
    /// A worker takes the work from the worklist.
    Start(WorkId),
    /// The work's turn came while it still runs: it will start where it runs.
    Defer(WorkId),
    /// The rescuer of the work's queue takes the work from the worklist.
    Rescue(WorkId),
}
