//! A machine's own structure with an index for each question.
ghost use Rattle.cmwq_table.specs.Moves.{begun};
ghost use Rattle.std.specs.Prelude.{◌≡◌};

use crate::beginning::{Stores, copied_stores, first_stores};
use crate::looking::running_works;
use crate::moving::{listed_pool, with, with_some, without};
use crate::rescuing::first_rescued;
use cmwq_idle::IdleWorkers;
use cmwq_parts::{Parts, PoolSet};
use cmwq_queued::{MAX_POOLS, QueuedWorks};
use cmwq_reads::{Sought, entries, idle_workers};
use cmwq_running::RunningWorks;
use cmwq_table::{FlushTarget, Pending, Reads, Running, View};
use cmwq_timers::Timers;
use cmwq_types::{NoMemory, Place, RESCUER, Scenario};
use std::alloc::Global;
use std::marker::Model;
use std::sync::Arc;

/// A loaded scenario and the whole state of the instruction table: pending works with their lists and timers, running works with their lines
/// and end times, idle workers as they became idle, and plain numbers for the rest.
///
/// A pool that has a move is one of `moving`, and a pool is put there where a change may give it one: what only moves a pool that had a move needs
/// not do so. All room is taken by `begin` and `copy`.
#[derive(Drop)]
pub struct CoreParts {
    queued: QueuedWorks,
    running: RunningWorks,
    workers: IdleWorkers,
    moving: PoolSet,
    next: u64,
    spent: u32,
    frozen: bool,
    pressed: bool,
    max: Vec<u16>,
    depth: Vec<u16>,
    flushes: Vec<FlushTarget>,
}

impl Model for CoreParts {
    ghost use Rattle.cmwq_core.specs.CoreLayout.{IsKept};
    ghost use Rattle.cmwq_table.specs.Ready.{Loaded};
    ghost use Rattle.std.specs.Prelude.{vec_capacity};

    ghost Value = { Loaded };

    ghost view = { λ p. record {
      scenario = p.queued.scenario;
      state = record {
        time = p.running.time;
        next = p.next;
        spent = p.spent;
        frozen = p.frozen;
        pressed = p.pressed;
        max = p.max.items;
        pending = p.queued.pending;
        running = p.running.running;
        depth = p.depth.items;
        idle = p.workers.idle;
        made = p.workers.made;
        flushes = p.flushes.items;
      };
    } };

    ghost invariant = { λ p. IsKept p.queued p.running p.workers p.next p.pressed p.moving p.max.items p.depth.items (vec_capacity p.flushes) };
}

impl Reads for CoreParts {
    ghost loaded = { λ p. p.scenario };

    ghost state = { λ p. p.state };

    fn scenario(&self) -> &Scenario {
        self.queued.scenario()
    }

    fn time(&self) -> u64 {
        self.running.time()
    }

    fn next_stamp(&self) -> u64 {
        self.next
    }

    fn spent(&self) -> u32 {
        self.spent
    }

    fn is_frozen(&self) -> bool {
        self.frozen
    }

    fn is_pressed(&self) -> bool {
        self.pressed
    }

    fn max_of(&self, queue: u8) -> u16 {
        self.max.get(queue as usize).copied().unwrap_or(0)
    }

    #[inline(always)]
    fn pending_of(&self, w: usize) -> Option<Pending> {
        self.queued.of(w)
    }

    #[inline(always)]
    fn running_of(&self, w: usize) -> Option<Running> {
        self.running.of(w)
    }

    #[inline(always)]
    fn depth_of(&self, w: usize) -> u16 {
        self.depth.get(w).copied().unwrap_or(0)
    }

    fn idle_of(&self, pool: u8, worker: u8) -> Option<u64> {
        self.workers.since(pool, worker)
    }

    fn made_of(&self, pool: u8) -> u8 {
        self.workers.made_of(pool)
    }

    fn flush_count(&self) -> usize {
        self.flushes.len()
    }

    fn flush_of(&self, number: usize) -> Option<FlushTarget> {
        self.flushes.get(number).copied()
    }
}

impl Parts for CoreParts {
    fn begin(alloc: Global, scenario: Arc<Scenario>) -> Result<Self, NoMemory> {
        let Stores { works, others } = first_stores(alloc, &scenario)?;
        Ok(CoreParts {
            queued: works.queued,
            running: works.running,
            moving: PoolSet::all(),
            workers: others.workers,
            next: 0,
            spent: 0,
            frozen: false,
            pressed: false,
            max: others.numbers.max,
            depth: others.numbers.depth,
            flushes: others.numbers.flushes,
        })
    }

    fn copy(&self) -> Result<Self, NoMemory> {
        let Stores { works, others } = copied_stores(
            &self.queued,
            &self.running,
            &self.workers,
            &self.max,
            &self.depth,
            &self.flushes,
        )?;
        Ok(CoreParts {
            queued: works.queued,
            running: works.running,
            workers: others.workers,
            moving: self.moving,
            next: self.next,
            spent: self.spent,
            frozen: self.frozen,
            pressed: self.pressed,
            max: others.numbers.max,
            depth: others.numbers.depth,
            flushes: others.numbers.flushes,
        })
    }

    fn look(&self) -> Result<View, NoMemory> {
        let alloc = *self.max.allocator();
        Ok(View {
            time: self.running.time(),
            next: self.next,
            spent: self.spent,
            frozen: self.frozen,
            pressed: self.pressed,
            max: Vec::from_slice(alloc, &self.max)?,
            pending: entries(alloc, self.queued.all())?,
            running: running_works(alloc, &self.running)?,
            depth: Vec::from_slice(alloc, &self.depth)?,
            idle: idle_workers(alloc, self.workers.all())?,
            made: Vec::from_slice(alloc, self.workers.made())?,
            flushes: Vec::from_slice(alloc, &self.flushes)?,
        })
    }

    #[inline(always)]
    fn pending(&self, w: usize) -> Option<Pending> {
        self.queued.work(w)
    }

    #[inline(always)]
    fn running(&self, w: usize) -> Option<Running> {
        self.running.work(w)
    }

    #[inline(always)]
    fn depth(&self, w: usize) -> u16 {
        self.depth[w]
    }

    #[inline(always)]
    fn has_room(&self, queue: u8, pool: u8) -> bool {
        if pool >= MAX_POOLS || queue as usize >= self.queued.scenario().queues.len() {
            return cmwq_reads::has_room(self, queue, pool);
        }
        let active = self.queued.active(queue, pool) + self.running.running_in(queue, pool);
        active < usize::from(cmwq_reads::limit(self, queue))
    }

    fn is_busy(&self) -> bool {
        self.queued.is_busy() || self.running.freezable_running() != 0
    }

    #[inline(always)]
    fn may_move(&self) -> PoolSet {
        self.moving.common(PoolSet(self.workers.pool_bits()))
    }

    #[inline(never)]
    fn settle(&mut self, pool: u8) {
        self.moving = without(self.moving, pool);
    }

    #[inline(always)]
    fn may_start(&self, pool: u8) -> bool {
        if pool >= MAX_POOLS {
            return cmwq_reads::may_start(self, pool);
        }
        self.running.may_start(pool)
    }

    #[inline(always)]
    fn first_inactive(&self, queue: u8, pool: u8) -> Option<usize> {
        if pool >= MAX_POOLS || queue as usize >= self.queued.scenario().queues.len() {
            return cmwq_reads::first(self, Sought::Inactive { queue, pool });
        }
        self.queued.first_inactive(queue, pool)
    }

    #[inline(always)]
    fn first_listed(&self, pool: u8) -> Option<usize> {
        if pool >= MAX_POOLS {
            return cmwq_reads::first(self, Sought::Listed { pool });
        }
        self.queued.first_listed(pool)
    }

    fn first_rescued(&self, pool: u8) -> Option<usize> {
        if pool >= MAX_POOLS {
            return cmwq_reads::first(self, Sought::Rescued { pool });
        }
        first_rescued(&self.queued, &self.running, pool)
    }

    #[inline(always)]
    fn first_due(&self) -> Option<usize> {
        self.queued.first_due(self.running.time())
    }

    #[inline(always)]
    fn first_slept(&self, pool: u8) -> Option<usize> {
        if pool >= MAX_POOLS {
            return cmwq_reads::first(self, Sought::Slept { pool });
        }
        self.running.first_slept(pool)
    }

    #[inline(always)]
    fn ready_head(&self, pool: u8) -> Option<usize> {
        if pool >= MAX_POOLS {
            return cmwq_reads::ready_head(self, pool);
        }
        self.running.ready_head(pool)
    }

    #[inline(always)]
    fn free_worker(&self, pool: u8) -> Option<u8> {
        match self.workers.last(pool) {
            Some(worker) => Some(worker),
            None => cmwq_reads::new_worker(self, pool),
        }
    }

    #[inline(always)]
    fn bear(&mut self, w: usize, place: Place) {
        let stamp = self.next;
        self.queued.put(
            w,
            Pending {
                born: stamp,
                stamp,
                place,
            },
        );
        self.moving = with_some(self.moving, listed_pool(place));
        self.next = stamp + 1;
    }

    #[inline(always)]
    fn unpend(&mut self, w: usize, p: Pending) {
        self.queued.take(w);
        self.moving = with_some(self.moving, listed_pool(p.place));
    }

    fn set_timer(&mut self, w: usize, _p: Pending, due: u64, cpu: u8) {
        let born = self.next;
        let place = Place::Timer { due, cpu };
        let stamp = born;
        self.queued.list(w, Pending { born, stamp, place });
        self.next = born + 1;
    }

    #[inline(always)]
    fn enlist(&mut self, _queue: u8, pool: u8, w: usize) {
        if let Some(p) = self.queued.work(w) {
            let stamp = self.next;
            let place = Place::Listed(pool);
            self.queued.list(w, Pending { stamp, place, ..p });
            self.moving = with(self.moving, pool);
            self.next = stamp + 1;
        }
    }

    #[inline(always)]
    fn defer(&mut self, pool: u8, w: usize) {
        self.queued.defer(w, pool);
        self.moving = with(self.moving, pool);
    }

    #[inline(always)]
    fn start_on(&mut self, pool: u8, w: usize, worker: u8, p: Pending) {
        let stamp = self.next;
        self.queued.take(w);
        self.workers.start(pool, worker);
        self.running.begin(w, p.born, pool, worker, stamp);
        self.moving = with(self.moving, pool);
        self.next = stamp + 1;
    }

    fn rescue(&mut self, pool: u8, w: usize, p: Pending) {
        let stamp = self.next;
        self.queued.take(w);
        self.running.begin(w, p.born, pool, RESCUER, stamp);
        self.moving = PoolSet::all();
        self.next = stamp + 1;
    }

    #[inline(always)]
    fn go_on(&mut self, w: usize, r: Running, left: u32) {
        self.running.go_on(w, r, left);
    }

    #[inline(always)]
    fn sleep(&mut self, w: usize, r: Running, until: u64) {
        self.running.sleep(w, r, until);
    }

    #[inline(always)]
    fn wake(&mut self, pool: u8, w: usize) {
        let stamp = self.next;
        self.running.wake(pool, w, stamp);
        self.next = stamp + 1;
    }

    #[inline(always)]
    fn begin_again(&mut self, w: usize, r: Running, p: Pending) {
        let stamp = self.next;
        self.queued.take(w);
        self.running.begin_again(w, r, p.born, stamp);
        self.next = stamp + 1;
    }

    #[inline(always)]
    fn retire(&mut self, w: usize, r: Running) {
        self.running.retire(w, r);
        if r.worker == RESCUER {
            self.moving = PoolSet::all();
            return;
        }
        self.workers.retire(r.pool, r.worker, self.next);
        self.next += 1;
        if let Some(p) = self.queued.work(w) {
            self.moving = with_some(self.moving, listed_pool(p.place));
        }
    }

    #[inline(always)]
    fn pass(&mut self, most: u32) -> u32 {
        let until_due = self.until_due(most);
        let (count, ended) = self.running.pass(until_due);
        self.moving = self.moving.union(ended);
        count
    }

    fn set_depth(&mut self, w: usize, depth: u16) {
        self.depth[w] = depth;
    }

    fn set_max(&mut self, queue: u8, max: u16) {
        self.max[queue as usize] = max;
    }

    fn set_frozen(&mut self, frozen: bool) {
        self.frozen = frozen;
    }

    fn set_pressed(&mut self, pressed: bool) {
        self.pressed = pressed;
        self.moving = PoolSet::all();
    }

    fn push_flush(&mut self, target: FlushTarget) {
        self.flushes.push(target).unwrap();
    }

    fn spend(&mut self, count: u32) {
        self.spent += count;
    }

    fn skip_stamps(&mut self, count: u32) {
        self.next += u64::from(count);
    }
}

impl CoreParts {
    ghost use Rattle.cmwq_queued.specs.Indexes.{timer_of};
    ghost use Rattle.cmwq_queued.specs.QueuedContents.{next_due};
    ghost use Rattle.cmwq_table.specs.Counts.{first_due};
    ghost use Rattle.cmwq_table.specs.State.{pending_at};
    ghost use Rattle.cmwq_timers.specs.Timers.{timer_at};
    ghost use Rattle.std.specs.Prelude.{◌-◌, ◌<◌, ◌≤◌, ◌^◌, ℕ, IfSome, None, true};

    /// The timers of the machine: one of each work that waits for one, by due time in ticks and then by stamp.
    pub fn timers(&self) -> &Timers
        ensures { (w : ℕ) → timer_at result.now w ≡ timer_of w (pending_at self.now.state w) }
    {
        self.queued.timers()
    }

    /// For how many ticks, at most so many, no timer is due. Now none is.
    #[inline(always)]
    fn until_due(&self, most: u32) -> u32
        requires due { first_due self.now.scenario self.now.state ≡ None }
        requires some { 0 < most }
        ensures some { 0 < result }
        ensures few { result ≤ most }
        ensures due { IfSome (next_due self.now.scenario self.now.state.pending) (λ due. result ≤ due - self.now.state.time) }
    {
        match self.queued.next_due() {
            None => most,
            Some(due) => due.saturating_sub(self.running.time()).min(u64::from(most)) as u32,
        }
    }
}
