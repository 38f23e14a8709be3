//! The instances of works, and the reasons for which they aren't further than they are.

use cmwq_types::WorkId;

/// One of the two halves that a work can have at once: what is queued of it, and what runs of it.
#[derive(Clone, Copy, PartialEq, Eq)]
pub enum Instance {
    /// What is queued of the work, or waits for a timer.
    Pending(WorkId),
    /// What runs of the work.
    Running(WorkId),
}

/// What becomes of a listed work in its pool's next move.
#[derive(Clone, Copy, PartialEq, Eq)]
pub enum Turn {
    /// A worker takes it.
    Starts,
    /// It still runs, and will start where it runs.
    Defers,
    /// Its queue's rescuer takes it.
    StartsOnRescuer,
}

/// Why an instance isn't further than it is. Pools, CPUs and times are numbers of the machine.
#[derive(Clone, Copy, PartialEq, Eq)]
pub enum Reason {
    /// It runs, and sleeps until this tick.
    Asleep(u64),
    /// Its sleep is over, and it wakes in its pool's next move.
    WakesNext,
    /// Its sleep is over, and its pool moves this instance first.
    WakesAfter(Instance),
    /// It is runnable behind this work, which has the place of the bound pool on the CPU.
    Behind(WorkId),
    /// It has nothing left to burn, and goes on in its pool's next move.
    ReadyNext,
    /// It has nothing left to burn, and its pool moves this instance first.
    ReadyAfter(Instance),
    /// It has something to burn, but the high pool of its CPU has this work to run.
    HighHas(WorkId),
    /// It burns in the next tick.
    Burns,
    /// It isn't pending, and was disabled so much more often than enabled.
    Disabled(u16),
    /// It isn't pending.
    NotPending,
    /// Its timer runs until `due` ticks, and then places it on `cpu`.
    Timer { due: u64, cpu: u8 },
    /// Its timer has run out, and fires as the next one.
    FiresNext,
    /// Its timer has run out, and that of this work fires first.
    FiresAfter(WorkId),
    /// Its turn came in this pool, but the work still runs there.
    Deferred(u8),
    /// It waits for room in this pool, and its queue is frozen.
    Frozen(u8),
    /// It waits in this pool for its queue's `max_active`.
    Inactive(u8),
    /// It is on the worklist of this pool, whose concurrency level isn't 0.
    Held(u8),
    /// It is on the worklist of this pool, which takes it in its next move.
    Free { pool: u8, turn: Turn },
    /// It is on the worklist of this pool, which moves this instance first.
    After { pool: u8, first: Instance },
    /// It is on the worklist of this pool, which has no worker for it.
    NoWorker(u8),
}
