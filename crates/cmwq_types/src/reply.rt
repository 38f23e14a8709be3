//! What the machine answers, and the words that its answers and its state share.
ghost use Rattle.cmwq_types.specs.Places.{due_of, is_activated, is_active, is_deferred, is_due, is_inactive, is_listed, is_placed, is_runnable, is_slept, until_of};
ghost use Rattle.std.specs.Prelude.{◌≡◌};

use crate::instr::WorkId;

/// Where a pending work waits. Pools, CPUs and times are numbers of the machine.
#[derive(Clone, Copy, PartialEq, Eq)]
pub enum Place {
    /// A delayed work's timer runs until `due` ticks, and then places the work on `cpu`.
    Timer { due: u64, cpu: u8 },
    /// The work waits for its queue's `max_active` in this pool.
    Inactive(u8),
    /// The work is on this pool's worklist.
    Listed(u8),
    /// The work's turn came in this pool while it still ran there.
    Deferred(u8),
}

impl Place {
    /// Whether the work waits in the pool for its queue's `max_active`.
    pub fn is_inactive(self, pool: u8) -> bool
        ensures { result ≡ is_inactive self pool }
    {
        matches!(self, Place::Inactive(at) if at == pool)
    }

    /// Whether the work is on the pool's worklist.
    pub fn is_listed(self, pool: u8) -> bool
        ensures { result ≡ is_listed self pool }
    {
        matches!(self, Place::Listed(at) if at == pool)
    }

    /// Whether the work counts in the pool against its queue's `max_active`: it is listed or deferred there.
    pub fn is_active(self, pool: u8) -> bool
        ensures { result ≡ is_active self pool }
    {
        matches!(self, Place::Listed(at) | Place::Deferred(at) if at == pool)
    }

    /// Whether the work is listed or deferred, in whatever pool.
    pub fn is_activated(self) -> bool
        ensures { result ≡ is_activated self }
    {
        matches!(self, Place::Listed(_) | Place::Deferred(_))
    }

    /// Whether the work is deferred, in whatever pool.
    pub fn is_deferred(self) -> bool
        ensures { result ≡ is_deferred self }
    {
        matches!(self, Place::Deferred(_))
    }

    /// Whether the work stands in a pool: it doesn't wait for a timer.
    pub fn is_placed(self) -> bool
        ensures { result ≡ is_placed self }
    {
        !matches!(self, Place::Timer { .. })
    }

    /// Whether the work's timer has run out by this tick.
    pub fn is_due(self, time: u64) -> bool
        ensures { result ≡ is_due self time }
    {
        matches!(self, Place::Timer { due, .. } if due <= time)
    }

    /// The tick at which the work's timer runs out; 0 where it waits for none.
    pub fn due(self) -> u64
        ensures { result ≡ due_of self }
    {
        match self {
            Place::Timer { due, .. } => due,
            _ => 0,
        }
    }
}

/// What a worker that runs a work does.
#[derive(Clone, Copy, PartialEq, Eq)]
pub enum Mode {
    /// It has the CPU, or waits for it.
    Runnable,
    /// It sleeps until this tick.
    Asleep(u64),
}

impl Mode {
    /// Whether the worker has the CPU, or waits for it.
    pub fn is_runnable(self) -> bool
        ensures { result ≡ is_runnable self }
    {
        matches!(self, Mode::Runnable)
    }

    /// Whether the worker sleeps, and its sleep is over by this tick.
    pub fn is_slept(self, time: u64) -> bool
        ensures { result ≡ is_slept self time }
    {
        matches!(self, Mode::Asleep(until) if until <= time)
    }

    /// The tick until which the worker sleeps; 0 where it doesn't.
    pub fn until(self) -> u64
        ensures { result ≡ until_of self }
    {
        match self {
            Mode::Runnable => 0,
            Mode::Asleep(until) => until,
        }
    }
}

/// What a move of the machine did to the work that it moved.
#[derive(Clone, Copy, PartialEq, Eq)]
pub enum Event {
    /// A worker took the work from the worklist.
    Starts,
    /// It begins to burn this many ticks of CPU time.
    Burns(u32),
    /// It goes to sleep for this many ticks.
    Sleeps(u32),
    /// Its sleep is over.
    Wakes,
    /// It came to the end of its body.
    Finishes,
    /// It came to the end of its body, and its deferred instance starts on the same worker.
    FinishesAndStarts,
    /// Its turn came while it still runs: it will start where it runs.
    Defers,
    /// Its timer fired, and placed it.
    Fires,
    /// It queued the work `other`, or found it pending `already`.
    Queues {
        other: WorkId,
        already: bool,
    },
    /// It was to queue the work `other`, which is disabled.
    QueuesDisabled {
        other: WorkId,
    },
    /// Its queue's rescuer took the work from the worklist.
    StartsOnRescuer,
    /// It queued the work `other` after `ticks`, or found it pending `already`.
    Delays {
        other: WorkId,
        ticks: u32,
        already: bool,
    },
    /// It was to queue the work `other` after `ticks`, which is disabled.
    DelaysDisabled {
        other: WorkId,
        ticks: u32,
    },
    /// It queued the work `other` anew after `ticks`; where it was pending, that `changed`.
    Mods {
        other: WorkId,
        ticks: u32,
        changed: bool,
    },
    /// It was to queue the work `other` anew after `ticks`, which is disabled.
    ModsDisabled {
        other: WorkId,
        ticks: u32,
    },
    /// It took the work `other` off, which `was` pending, or found it not pending.
    Cancels {
        other: WorkId,
        was: bool,
    },
}

/// Why no time may pass.
#[derive(Clone, Copy, PartialEq, Eq)]
pub enum Cause {
    /// A timer is due.
    Due,
    /// This pool has a move; it is the least such pool.
    Pool(u8),
}

/// Why an instruction was refused. A refused instruction changes nothing.
#[derive(Clone, Copy, PartialEq, Eq)]
pub enum Refusal {
    /// No work has the number.
    NoSuchWork,
    /// No queue has the number.
    NoSuchQueue,
    /// No CPU has the number.
    NoSuchCpu,
    /// No pool has the number.
    NoSuchPool,
    /// No flush has the number.
    NoSuchFlush,
    /// A `max` is outside 1 to 512.
    BadCount,
    /// The scenario's `steps` are used up.
    Spent,
    /// The scenario's `flushes` are used up.
    TooManyFlushes,
    /// An ordered queue keeps `max` 1 for good.
    Ordered,
    /// The machine is frozen already.
    AlreadyFrozen,
    /// The machine isn't frozen.
    NotFrozen,
    /// The pool has no move, or no timer has run out.
    NothingToDo,
    /// Something can still happen without time.
    Unsettled(Cause),
    /// The work is disabled.
    Disabled,
    /// The work was disabled 65,535 times more often than enabled.
    TooDeep,
    /// The work isn't disabled.
    NotDisabled,
    /// Memory is short already.
    AlreadyPressed,
    /// Memory isn't short.
    NotPressed,
}

/// Where a running work runs.
#[derive(Clone, Copy, PartialEq, Eq)]
pub struct WorkRun {
    /// The pool in which it runs.
    pub pool: u8,
    /// The number of its worker in that pool, or `RESCUER`.
    pub worker: u8,
    /// Whether it is runnable, or until when it sleeps.
    pub mode: Mode,
}

/// Where a work is.
#[derive(Clone, Copy, PartialEq, Eq)]
pub struct WorkState {
    /// Where it waits, if it is pending.
    pub place: Option<Place>,
    /// Where it runs, if it runs.
    pub run: Option<WorkRun>,
}

/// What the machine answers to an instruction.
#[derive(Clone, Copy, PartialEq, Eq)]
pub enum Reply {
    /// The work was queued.
    Queued,
    /// The work was pending already, and nothing changed.
    Already,
    /// The pending work was taken off and queued anew.
    Changed,
    /// The pending work was taken off.
    Cancelled,
    /// The work wasn't pending, and nothing changed.
    NotPending,
    /// The work `was` pending and was taken off, or not; the flush has this number.
    Sync { was: bool, flush: u16 },
    /// The flush has this number.
    Flush(u16),
    /// It was done.
    Done,
    /// It is so.
    Yes,
    /// It isn't so.
    No,
    /// This is where the work is.
    Found(WorkState),
    /// The work moved.
    Event { work: WorkId, event: Event },
    /// It was refused, and nothing changed.
    Refused(Refusal),
}
