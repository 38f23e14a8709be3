//! What is kept of an instance of a work: since when it is there, and where its time went.

ghost use Rattle.cmwq_ledger.specs.Ledger.{all_ticks, new_account, one_tick_more, queued_ticks, ticked};
ghost use Rattle.std.specs.Prelude.{◌≡◌, ◌+◌, ◌-◌, ◌<◌, ◌^◌};

use cmwq_picture::Sign;

/// For how many ticks an instance did what.
#[derive(Clone, Copy, PartialEq, Eq)]
pub struct Ticks {
    /// It was pending, with a timer.
    pub timer: u64,
    /// It was pending, and waited for its queue's `max_active`.
    pub inactive: u64,
    /// It was pending, on a worklist.
    pub listed: u64,
    /// It was pending, and waited for its own work's run to end.
    pub deferred: u64,
    /// It ran and was runnable, without the CPU.
    pub ready: u64,
    /// It ran, and burned CPU time.
    pub burned: u64,
    /// It ran, and slept.
    pub slept: u64,
}

impl Ticks {
    /// One tick more of what is done in it.
    fn one_tick_more(self, sign: Sign) -> Ticks
        requires { all_ticks self < 2 ^ 64 - 1 }
        ensures { result ≡ one_tick_more sign self }
    {
        match sign {
            Sign::Timed => Ticks {
                timer: self.timer + 1,
                ..self
            },
            Sign::Inactive => Ticks {
                inactive: self.inactive + 1,
                ..self
            },
            Sign::Listed => Ticks {
                listed: self.listed + 1,
                ..self
            },
            Sign::Deferred => Ticks {
                deferred: self.deferred + 1,
                ..self
            },
            Sign::Waits => Ticks {
                ready: self.ready + 1,
                ..self
            },
            Sign::Burns => Ticks {
                burned: self.burned + 1,
                ..self
            },
            Sign::Sleeps => Ticks {
                slept: self.slept + 1,
                ..self
            },
        }
    }

    /// Those in which the instance was queued, and hadn't started.
    pub(crate) fn queued(self) -> u64
        requires { all_ticks self < 2 ^ 64 }
        ensures { result ≡ queued_ticks self }
    {
        self.inactive + (self.listed + self.deferred)
    }
}

/// What is kept of an instance of a work.
#[derive(Clone, Copy, PartialEq, Eq)]
pub struct Account {
    /// The time at which it was asked for, in ticks.
    pub since: u64,
    /// Where its time went.
    pub ticks: Ticks,
}

impl Account {
    /// The account of an instance that is asked for now.
    pub(crate) fn new(time: u64) -> Account
        ensures { result ≡ new_account time }
    {
        Account {
            since: time,
            ticks: Ticks {
                timer: 0,
                inactive: 0,
                listed: 0,
                deferred: 0,
                ready: 0,
                burned: 0,
                slept: 0,
            },
        }
    }

    /// The account after one tick more, in which the instance does this.
    pub(crate) fn ticked(self, sign: Sign) -> Account
        requires { all_ticks self.ticks < 2 ^ 64 - 1 }
        ensures { result ≡ ticked sign self }
    {
        Account {
            since: self.since,
            ticks: self.ticks.one_tick_more(sign),
        }
    }
}
