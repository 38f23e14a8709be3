//! The parts of a machine's state.
//!
//! A stamp is a number from a counter that only rises: a lower one is older.

ghost use Rattle.cmwq_types.specs.Places.{due_of, until_of};
ghost use Rattle.std.specs.Prelude.{◌≡◌};

use cmwq_types::{Mode, Place, QueueId, WorkId};

/// What is known of a pending work.
#[derive(Clone, Copy, PartialEq, Eq)]
pub struct Pending {
    /// The stamp of its queueing.
    pub born: u64,
    /// The stamp of its place.
    pub stamp: u64,
    /// Where it is: with a timer, inactive, listed or deferred.
    pub place: Place,
}

impl Pending {
    /// What timers fire in the order of: the tick at which it runs out, 0 where it waits for none, and
    /// then its stamp.
    pub fn firing_key(self) -> (u64, u64)
        ensures { result ≡ (due_of self.place, self.stamp) }
    {
        (self.place.due(), self.stamp)
    }
}

/// What is known of a running work.
#[derive(Clone, Copy, PartialEq, Eq)]
pub struct Running {
    /// The stamp of its queueing.
    pub born: u64,
    /// The pool in which it runs.
    pub pool: u8,
    /// The number of its worker in that pool.
    pub worker: u8,
    /// The place in its body of the operation that comes next.
    pub pc: u8,
    /// How many ticks it has still to burn.
    pub left: u32,
    /// Whether it is runnable, or until when it sleeps.
    pub mode: Mode,
    /// The stamp of its start or its last wake.
    pub stamp: u64,
}

impl Running {
    /// What sleepers wake in the order of: the tick until which it sleeps, 0 where it doesn't, and then
    /// its stamp.
    pub fn waking_key(self) -> (u64, u64)
        ensures { result ≡ (until_of self.mode, self.stamp) }
    {
        (self.mode.until(), self.stamp)
    }
}

/// What a flush waits for.
#[derive(Clone, Copy, PartialEq, Eq)]
pub enum FlushTarget {
    /// The instance of the work that was queued at the stamp `born`.
    Instance { work: WorkId, born: u64 },
    /// What was queued on the queue before the stamp `bound`.
    Queue { queue: QueueId, bound: u64 },
    /// Nothing: it is done at once.
    Nothing,
}
