//! The running works and the time.
ghost use Rattle.cmwq_parts.specs.PoolSets.{has_pool};
ghost use Rattle.cmwq_parts.specs.SettledTicks.{ticks};
ghost use Rattle.cmwq_phased.specs.declared.pools.TheConstants.{MAX_POOLS};
ghost use Rattle.cmwq_running.specs.RunningContents.{state_of, woken_run};
ghost use Rattle.cmwq_running.specs.Ticks.{HasRunning, MoveAlike};
ghost use Rattle.cmwq_table.specs.Counts.{first_slept, has_free_rescuer, may_start, ready_head, runs};
ghost use Rattle.cmwq_table.specs.Moves.{begun, next_move};
ghost use Rattle.cmwq_table.specs.State.{State, running_at};
ghost use Rattle.cmwq_types.specs.First.{count_below};
ghost use Rattle.cmwq_types.specs.Scenario.{flags_at, queue_of};
ghost use Rattle.cmwq_types.specs.Setting.{IsSetting};
ghost use Rattle.cmwq_types.specs.declared.limits.TheConstants.{MAX_OPS, MAX_WORKS};
ghost use Rattle.cmwq_types.specs.declared.reply.Mode.TheVariants.{Asleep};
ghost use Rattle.std.specs.Prelude.{◌≡◌, ◌<◌, ◌≤◌, ◌+◌, ◌^◌, ◌&&◌, ◌==◌, ℕ, IfOk, IfSome, None, Some, false, is_some, length, replicate, slice_set, true};

use crate::changing::{begin, begin_again, end, fall_asleep, first_run, go_on, wake};
use crate::ending::{end_by, ticks_to_end};
use crate::pacing::ready_run;
use cmwq_parts::PoolSet;
use cmwq_phased::PhasedWorks;
use cmwq_table::Running;
use cmwq_types::{NoMemory, Scenario};
use std::alloc::Global;
use std::marker::Model;
use std::sync::Arc;

/// The running works of a scenario, and the time of its machine.
///
/// Of a work that burns it is kept when its burn ends, so a tick is a step of the time, and costs nothing more unless something ends. In a bound
/// pool only the head has ticks left: when a CPU's high pool gets a runnable work, the burn of the normal pool's head is paused, and
/// when it has none any more, that goes on.
#[derive(Drop)]
pub struct RunningWorks {
    time: u64,
    works: PhasedWorks,
}

impl Model for RunningWorks {
    ghost use Rattle.cmwq_running.specs.RunningContents.{RunningContents, seen};
    ghost use Rattle.cmwq_running.specs.Heads.{AreKept};

    ghost Value = { RunningContents };

    ghost view = { λ r. seen r.time r.works };

    ghost invariant = { λ r. AreKept r.time r.works };
}

impl RunningWorks {
    /// The works of a valid scenario, of which none runs, at the time 0. The only error is want of memory.
    pub fn new(alloc: Global, scenario: Arc<Scenario>) -> Result<RunningWorks, NoMemory>
        requires setting { IsSetting scenario.value }
        ensures { IfOk result (λ made. made ≡ record { scenario = scenario.value; time = 0; running = replicate (length scenario.value.works) None }) }
    {
        let works = PhasedWorks::new(alloc, scenario)?;
        Ok(RunningWorks { time: 0, works })
    }

    /// The same works and time, apart from these. The scenario is shared. The only error is want of memory.
    pub fn copy(&self) -> Result<RunningWorks, NoMemory>
        ensures { IfOk result (λ copy. copy ≡ self.now) }
    {
        let works = self.works.copy()?;
        Ok(RunningWorks {
            time: self.time,
            works,
        })
    }

    /// The scenario of the works.
    pub fn scenario(&self) -> &Scenario
        ensures scenario { result.now ≡ self.now.scenario }
        ensures setting { IsSetting self.now.scenario }
        ensures works { length self.now.running ≡ length self.now.scenario.works }
    {
        self.works.scenario()
    }

    /// The time in ticks.
    pub fn time(&self) -> u64
        ensures { result ≡ self.now.time }
    {
        self.time
    }

    /// What is known of the work, if it runs. Where there is no such work, `None`.
    #[inline(always)]
    pub fn of(&self, w: usize) -> Option<Running>
        ensures { result ≡ running_at (state_of self.now) w }
    {
        let run = self.works.of(w)?;
        Some(run.shown(self.time))
    }

    /// The same of a work that there is.
    #[inline(always)]
    pub fn work(&self, w: usize) -> Option<Running>
        requires work { w < length self.now.scenario.works }
        ensures { result ≡ running_at (state_of self.now) w }
    {
        let run = self.works.run(w)?;
        Some(run.shown(self.time))
    }

    /// The pool's first sleeper whose sleep is over.
    pub fn first_slept(&self, pool: u8) -> Option<usize>
        requires pool { pool < MAX_POOLS }
        ensures first { result ≡ first_slept self.now.scenario (state_of self.now) pool }
        ensures in_range { IfSome result (λ w. w < length self.now.scenario.works) }
        ensures few { IfSome result (λ w. w < MAX_WORKS) }
    {
        self.works.first_rested(pool)
    }

    /// The first of the pool's heads with no tick left to burn.
    #[inline(always)]
    pub fn ready_head(&self, pool: u8) -> Option<usize>
        requires pool { pool < MAX_POOLS }
        ensures first { result ≡ ready_head self.now.scenario (state_of self.now) pool }
        ensures in_range { IfSome result (λ w. w < length self.now.scenario.works) }
        ensures few { IfSome result (λ w. w < MAX_WORKS) }
    {
        ready_run(&self.works, pool)
    }

    /// How many works of the queue run in the pool.
    pub fn running_in(&self, queue: u8, pool: u8) -> usize
        requires pool { pool < MAX_POOLS }
        requires queue { queue < length self.now.scenario.queues }
        ensures running { result ≡ count_below (λ w. (queue_of self.now.scenario w == queue) && runs (λ r. r.pool == pool) (running_at (state_of self.now) w)) (length self.now.scenario.works) }
        ensures few { result ≤ length self.now.scenario.works }
    {
        self.works.running_in(queue, pool)
    }

    /// Whether the pool may start a work: it is unbound, or its concurrency level is 0.
    pub fn may_start(&self, pool: u8) -> bool
        requires pool { pool < MAX_POOLS }
        ensures { result ≡ may_start self.now.scenario (state_of self.now) pool }
    {
        self.works.scenario().is_unbound(pool) || self.works.awake_in(pool) == 0
    }

    /// Whether the queue has a rescuer, and none of its works runs on it.
    pub fn has_free_rescuer(&self, queue: u8) -> bool
        requires queue { queue < length self.now.scenario.queues }
        ensures { result ≡ has_free_rescuer self.now.scenario (state_of self.now) queue }
    {
        has_rescuer(self.works.scenario(), queue) && self.works.rescued_of(queue) == 0
    }

    /// How many works of freezable queues run.
    pub fn freezable_running(&self) -> usize
        ensures running { result ≡ count_below (λ w. (flags_at self.now.scenario (queue_of self.now.scenario w)).freezable && is_some (running_at (state_of self.now) w)) (length self.now.scenario.works) }
        ensures few { result ≤ length self.now.scenario.works }
    {
        self.works.freezable_running()
    }

    /// The running work, the ready head of its pool, goes on to the next operation, with so many ticks to burn first.
    #[inline(always)]
    pub fn go_on(&mut self, w: usize, r: Running, left: u32)
        requires running { running_at (state_of self.old) w ≡ Some r }
        requires head { ready_head self.old.scenario (state_of self.old) r.pool ≡ Some w }
        requires pc { r.pc < MAX_OPS }
        ensures { self.new ≡ record self.old { running = slice_set self.old.running w (Some (record r { pc = r.pc + 1; left = left })) } }
    {
        let RunningWorks { time, works } = self;
        go_on(works, *time, w, r, left);
    }

    /// The running work, the ready head of its pool, goes on to the next operation, and sleeps until this time first.
    #[inline(always)]
    pub fn sleep(&mut self, w: usize, r: Running, until: u64)
        requires running { running_at (state_of self.old) w ≡ Some r }
        requires head { ready_head self.old.scenario (state_of self.old) r.pool ≡ Some w }
        requires pc { r.pc < MAX_OPS }
        ensures { self.new ≡ record self.old { running = slice_set self.old.running w (Some (record r { pc = r.pc + 1; mode = Asleep until })) } }
    {
        let RunningWorks { time, works } = self;
        fall_asleep(works, *time, w, r, until);
    }

    /// Wakes the pool's first sleeper whose sleep is over, under a stamp above those of all running works.
    #[inline(always)]
    pub fn wake(&mut self, pool: u8, w: usize, stamp: u64)
        requires first { first_slept self.old.scenario (state_of self.old) pool ≡ Some w }
        requires newest { (v : ℕ) → IfSome (running_at (state_of self.old) v) (λ q. q.stamp < stamp) }
        ensures runs { is_some (running_at (state_of self.old) w) ≡ true }
        ensures woken { self.new ≡ record self.old { running = slice_set self.old.running w (woken_run stamp (running_at (state_of self.old) w)) } }
    {
        let RunningWorks { time, works } = self;
        wake(works, *time, pool, w, stamp);
    }

    /// An instance of the work, of which none runs, that was born then begins in the pool on the worker, under a stamp above those of all running
    /// works.
    #[inline(always)]
    pub fn begin(&mut self, w: usize, born: u64, pool: u8, worker: u8, stamp: u64)
        requires work { w < length self.old.scenario.works }
        requires still { running_at (state_of self.old) w ≡ None }
        requires newest { (v : ℕ) → IfSome (running_at (state_of self.old) v) (λ q. q.stamp < stamp) }
        ensures { self.new ≡ record self.old { running = slice_set self.old.running w (Some (begun born pool worker stamp)) } }
    {
        let RunningWorks { time, works } = self;
        begin(works, *time, w, first_run(born, pool, worker, stamp));
    }

    /// The running work, the ready head of its pool, ends, and an instance of it that was born then begins in its pool on its worker, under a stamp
    /// above those of all running works.
    #[inline(always)]
    pub fn begin_again(&mut self, w: usize, r: Running, born: u64, stamp: u64)
        requires running { running_at (state_of self.old) w ≡ Some r }
        requires head { ready_head self.old.scenario (state_of self.old) r.pool ≡ Some w }
        requires newest { (v : ℕ) → IfSome (running_at (state_of self.old) v) (λ q. q.stamp < stamp) }
        ensures { self.new ≡ record self.old { running = slice_set self.old.running w (Some (begun born r.pool r.worker stamp)) } }
    {
        let RunningWorks { time, works } = self;
        begin_again(works, *time, w, r, born, stamp);
    }

    /// The running work, the ready head of its pool, doesn't run any more.
    #[inline(always)]
    pub fn retire(&mut self, w: usize, r: Running)
        requires running { running_at (state_of self.old) w ≡ Some r }
        requires head { ready_head self.old.scenario (state_of self.old) r.pool ≡ Some w }
        ensures { self.new ≡ record self.old { running = slice_set self.old.running w None } }
    {
        let RunningWorks { time, works } = self;
        end(works, *time, w, r);
    }

    /// Lets ticks pass, at most so many, until a burn or a sleep ends, and one at least, if any may. Answers how many, and in which pools a burn or a
    /// sleep ended.
    ///
    /// Before each of them each pool has the next move that it had before the first, whatever else the state has, and after them still each one
    /// that isn't told and whose number is below 64.
    #[inline(always)]
    pub fn pass(&mut self, most: u32) -> (u32, PoolSet)
        requires time { self.old.time < 2 ^ 63 }
        ensures few { result.0 ≤ most }
        ensures some { 0 < most → 0 < result.0 }
        ensures scenario { self.new.scenario ≡ self.old.scenario }
        ensures time { self.new.time ≡ self.old.time + result.0 }
        ensures passed { (s : State) → HasRunning self.old s → ticks self.old.scenario s result.0 ≡ record s { time = self.new.time; running = self.new.running } }
        ensures alike { (s : State) → HasRunning self.old s → (earlier : ℕ) → earlier < result.0 → MoveAlike self.old.scenario s (ticks self.old.scenario s earlier) }
        ensures elsewhere { (s : State) → HasRunning self.old s → (pool : ℕ) → pool < 64 → has_pool result.1 pool ≡ false → next_move self.old.scenario (ticks self.old.scenario s result.0) pool ≡ next_move self.old.scenario s pool }
    {
        let RunningWorks { time, works } = self;
        let count = ticks_to_end(works, *time, most);
        *time += u64::from(count);
        let ended = end_by(works, *time);
        (count, ended)
    }
}

/// Whether a queue that there is has a rescuer.
#[inline(always)]
fn has_rescuer(scenario: &Scenario, queue: u8) -> bool
    requires queue { queue < length scenario.now.queues }
    ensures { result ≡ (flags_at scenario.now queue).mem_reclaim }
{
    scenario.queues[usize::from(queue)].flags.mem_reclaim
}
