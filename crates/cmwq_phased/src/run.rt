//! A running work, and how far it is with its operation.
ghost use Rattle.cmwq_phased.specs.Phases.{IsNear, left_in, mode_in, shown};
ghost use Rattle.std.specs.Prelude.{◌≡◌};

use cmwq_table::Running;
use cmwq_types::Mode;

/// How far a running work is with the operation that it carries out.
#[derive(Clone, Copy, PartialEq, Eq)]
pub enum Phase {
    /// It is runnable and has nothing left to burn.
    Ready,
    /// It is runnable and has so many ticks left to burn, but no CPU.
    Held(u32),
    /// It burns, and has nothing left at this time.
    Burning(u64),
    /// It sleeps until this time.
    Asleep(u64),
    /// It slept until this time, and hasn't been woken.
    Slept(u64),
}

/// What is known of a running work, with its phase in place of its mode and of the ticks that it has left. So a tick changes nothing of it,
/// unless something ends.
#[derive(Clone, Copy, PartialEq, Eq)]
pub struct Run {
    /// The stamp of its queueing.
    pub born: u64,
    /// The stamp of its start or its last wake.
    pub stamp: u64,
    /// How far it is with its operation.
    pub phase: Phase,
    /// The pool in which it runs.
    pub pool: u8,
    /// The number of its worker in that pool.
    pub worker: u8,
    /// The place in its body of the operation that comes next.
    pub pc: u8,
}

impl Phase {
    /// How many ticks are left to burn at the time. A sleeper has none.
    pub fn left(self, time: u64) -> u32
        requires near { IsNear time self }
        ensures { result ≡ left_in time self }
    {
        match self {
            Phase::Held(left) => left,
            Phase::Burning(end) => end.saturating_sub(time) as u32,
            Phase::Ready | Phase::Asleep(_) | Phase::Slept(_) => 0,
        }
    }

    /// Runnable, or asleep until a time.
    pub fn mode(self) -> Mode
        ensures { result ≡ mode_in self }
    {
        match self {
            Phase::Asleep(until) | Phase::Slept(until) => Mode::Asleep(until),
            Phase::Ready | Phase::Held(_) | Phase::Burning(_) => Mode::Runnable,
        }
    }
}

impl Run {
    /// The running work as the table has it at the time.
    pub fn shown(self, time: u64) -> Running
        requires near { IsNear time self.phase }
        ensures { result ≡ shown time self }
    {
        Running {
            born: self.born,
            pool: self.pool,
            worker: self.worker,
            pc: self.pc,
            left: self.phase.left(time),
            mode: self.phase.mode(),
            stamp: self.stamp,
        }
    }
}
