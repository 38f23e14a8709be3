//! What can be asked of a machine by number.
ghost use Rattle.cmwq_table.specs.State.{State, depth_at, idle_at, made_at, max_at, pending_at, running_at};
ghost use Rattle.cmwq_types.specs.Contents.{ScenarioContents};
ghost use Rattle.cmwq_types.specs.Setting.{IsSetting};
ghost use Rattle.std.specs.Prelude.{◌≡◌, length, slice_get};

use crate::state::{FlushTarget, Pending, Running};
use cmwq_types::Scenario;

/// A loaded scenario and the whole state of its machine, asked by number. Whoever wants to know something of a machine
/// needs no more.
///
/// Works, queues, pools, workers and flushes are named by their numbers, from 0. Where there is none of the number, the
/// answer is that of one of which nothing is known: no instance, 0, not idle.
pub trait Reads {
    /// The scenario that was loaded.
    ghost loaded: { Self → ScenarioContents };

    /// The whole state.
    ghost state: { Self → State };

    /// The scenario that was loaded. Of each of its works the state says whether it is pending, and of no others.
    fn scenario(&self) -> &Scenario
        ensures scenario { result.now ≡ loaded self.now }
        ensures setting { IsSetting (loaded self.now) }
        ensures works { length (state self.now).pending ≡ length (loaded self.now).works };

    /// The time, in ticks since the start.
    fn time(&self) -> u64
        ensures { result ≡ (state self.now).time };

    /// The next stamp: how many were given out, from 0.
    fn next_stamp(&self) -> u64
        ensures { result ≡ (state self.now).next };

    /// How many instructions were accepted and spent.
    fn spent(&self) -> u32
        ensures { result ≡ (state self.now).spent };

    /// Whether there is a freeze.
    fn is_frozen(&self) -> bool
        ensures { result ≡ (state self.now).frozen };

    /// Whether there is memory pressure.
    fn is_pressed(&self) -> bool
        ensures { result ≡ (state self.now).pressed };

    /// The `max_active` that the queue has now, and 0 where there is no such queue.
    fn max_of(&self, queue: u8) -> u16
        ensures { result ≡ max_at (state self.now) queue };

    /// The pending instance of the work, if it has one and there is such a work.
    fn pending_of(&self, w: usize) -> Option<Pending>
        ensures { result ≡ pending_at (state self.now) w };

    /// The running instance of the work, if it has one and there is such a work.
    fn running_of(&self, w: usize) -> Option<Running>
        ensures { result ≡ running_at (state self.now) w };

    /// How much more often the work was disabled than enabled, and 0 where there is no such work.
    fn depth_of(&self, w: usize) -> u16
        ensures { result ≡ depth_at (state self.now) w };

    /// The stamp from which on the worker of the pool is idle, if it is.
    fn idle_of(&self, pool: u8, worker: u8) -> Option<u64>
        ensures { result ≡ idle_at (state self.now) pool worker };

    /// How many workers the pool has made: they are the numbers from 0 on. 0 where there is no such pool.
    fn made_of(&self, pool: u8) -> u8
        ensures { result ≡ made_at (state self.now) pool };

    /// How many flushes were given: the number of the next one.
    fn flush_count(&self) -> usize
        ensures { result ≡ length (state self.now).flushes };

    /// What the flush of this number waits for; `None` where no such flush was given.
    fn flush_of(&self, number: usize) -> Option<FlushTarget>
        ensures { result ≡ slice_get (state self.now).flushes number };
}
