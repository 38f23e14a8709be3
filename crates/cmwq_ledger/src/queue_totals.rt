//! What is counted of a queue.
ghost use Rattle.cmwq_ledger.specs.Bounds.{IsQueueWithin};
ghost use Rattle.cmwq_ledger.specs.Totals.{as_long_as, at_most, nothing_counted, one_counted};
ghost use Rattle.std.specs.Prelude.{◌≡◌, ◌-◌, ◌^◌};

/// What is counted of a queue over a run.
#[derive(Clone, Copy, PartialEq, Eq)]
pub struct QueueTotals {
    /// How many instances of its works started.
    pub started: u64,
    /// How many of these finished.
    pub finished: u64,
    /// How many were taken off while they were pending.
    pub cancelled: u64,
    /// How many started on the queue's rescuer.
    pub rescued: u64,
    /// How many ticks its works burned.
    pub burned: u64,
    /// The most works that were active in one pool at once.
    pub most: u64,
    /// The most ticks for which one instance was inactive, listed and deferred.
    pub longest: u64,
}

/// What goes up by one.
#[derive(Clone, Copy, PartialEq, Eq)]
pub enum Count {
    /// Instances that started.
    Started,
    /// Instances that finished.
    Finished,
    /// Instances that were taken off.
    Cancelled,
    /// Instances that started on a rescuer.
    Rescued,
    /// Ticks that were burned.
    Burned,
}

impl QueueTotals {
    /// Nothing is counted yet.
    pub(crate) fn nothing() -> QueueTotals
        ensures { result ≡ nothing_counted }
    {
        QueueTotals {
            started: 0,
            finished: 0,
            cancelled: 0,
            rescued: 0,
            burned: 0,
            most: 0,
            longest: 0,
        }
    }

    /// One more of what is counted.
    pub(crate) fn one_counted(self, what: Count) -> QueueTotals
        requires { IsQueueWithin (2 ^ 64 - 2) self }
        ensures { result ≡ one_counted what self }
    {
        match what {
            Count::Started => QueueTotals {
                started: self.started + 1,
                ..self
            },
            Count::Finished => QueueTotals {
                finished: self.finished + 1,
                ..self
            },
            Count::Cancelled => QueueTotals {
                cancelled: self.cancelled + 1,
                ..self
            },
            Count::Rescued => QueueTotals {
                rescued: self.rescued + 1,
                ..self
            },
            Count::Burned => QueueTotals {
                burned: self.burned + 1,
                ..self
            },
        }
    }

    /// So many works are active in one pool.
    pub(crate) fn at_most(self, count: u64) -> QueueTotals
        ensures { result ≡ at_most count self }
    {
        QueueTotals {
            most: self.most.max(count),
            ..self
        }
    }

    /// An instance was queued for so many ticks.
    pub(crate) fn as_long_as(self, ticks: u64) -> QueueTotals
        ensures { result ≡ as_long_as ticks self }
    {
        QueueTotals {
            longest: self.longest.max(ticks),
            ..self
        }
    }
}
