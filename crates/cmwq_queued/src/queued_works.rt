//! The pending works.
ghost use Rattle.cmwq_queued.specs.Indexes.{list_at, timer_of};
ghost use Rattle.cmwq_timers.specs.Timers.{timer_at};
ghost use Rattle.cmwq_queued.specs.QueuedContents.{HaveOwnStamps, IsNewest, deferred_in, is_timer, listed_behind, next_due, pending_active, pending_at, pending_busy, pending_state, with_pending};
ghost use Rattle.cmwq_queued.specs.declared.pools.TheConstants.{MAX_POOLS};
ghost use Rattle.cmwq_table.specs.Counts.{first_due, first_inactive, first_listed, is_listed, pends};
ghost use Rattle.cmwq_types.specs.Scenario.{queue_of};
ghost use Rattle.cmwq_types.specs.Setting.{IsSetting};
ghost use Rattle.cmwq_types.specs.declared.limits.TheConstants.{MAX_WORKS};
ghost use Rattle.std.specs.Prelude.{◌≡◌, ◌==◌, ◌<◌, ℕ, IfOk, IfSome, IsSome, None, Some, length, not, replicate, slice_set, true};

use crate::indexes::{count, enlist, replace_timer, start_timer, stop_timer, uncount, unlist};
use crate::places::{class_in, inactive_list, is_timer};
use crate::pools::MAX_POOLS;
use cmwq_lists::Lists;
use cmwq_table::Pending;
use cmwq_tally::Tally;
use cmwq_timers::Timers;
use cmwq_types::{NoMemory, Place, Scenario, WorkId, filled};
use std::alloc::Global;
use std::marker::Model;
use std::sync::Arc;

/// The pending works of a machine: of each work of a scenario whether it is pending, and where.
///
/// Beside them stand a worklist a pool, a list of inactive works a queue and pool, the timers, and counts of those works
/// that are listed or deferred. Each is kept up to date where a work pends otherwise, so that no answer takes a search. A
/// place in a pool of a number that no machine has stands in no list and is counted in no pool.
#[derive(Drop)]
pub struct QueuedWorks {
    scenario: Arc<Scenario>,
    pending: Vec<Option<Pending>>,
    lists: Lists,
    timers: Timers,
    active: Tally,
    busy: Tally,
}

impl Model for QueuedWorks {
    ghost use Rattle.cmwq_queued.specs.Indexes.{IsIndexed};
    ghost use Rattle.cmwq_queued.specs.QueuedContents.{QueuedContents};

    ghost Value = { QueuedContents };

    ghost view = { λ q. record { scenario = q.scenario.value; pending = q.pending.items } };

    ghost invariant = { λ q. IsIndexed q.scenario.value q.pending.items q.lists q.timers q.active q.busy };
}

impl QueuedWorks {
    /// The works of a scenario, of which none is pending. The only error is want of memory, and nothing else of the works
    /// wants any but a copy.
    pub fn new(alloc: Global, scenario: Arc<Scenario>) -> Result<QueuedWorks, NoMemory>
        requires setting { IsSetting scenario.value }
        ensures scenario { IfOk result (λ made. made.scenario ≡ scenario.value) }
        ensures idle { IfOk result (λ made. made.pending ≡ replicate (length scenario.value.works) None) }
    {
        let works = scenario.works.len();
        let classes = usize::from(MAX_POOLS) * scenario.queues.len();
        let lists = usize::from(MAX_POOLS) + classes;
        Ok(QueuedWorks {
            pending: filled(alloc, None, works)?,
            lists: Lists::new(alloc, lists as u16, works as u16)?,
            timers: Timers::new(alloc, works as u16)?,
            active: Tally::new(alloc, classes)?,
            busy: Tally::new(alloc, 1)?,
            scenario,
        })
    }

    /// Works that are pending as these are. The scenario is shared. The only error is want of memory.
    pub fn copy(&self) -> Result<QueuedWorks, NoMemory>
        ensures { IfOk result (λ copy. copy ≡ self.now) }
    {
        let alloc = *self.pending.allocator();
        Ok(QueuedWorks {
            scenario: Arc::clone(&self.scenario)?,
            pending: Vec::from_slice(alloc, &self.pending)?,
            lists: self.lists.copy()?,
            timers: self.timers.copy()?,
            active: self.active.copy()?,
            busy: self.busy.copy()?,
        })
    }

    /// The scenario of the works.
    pub fn scenario(&self) -> &Scenario
        ensures scenario { result.now ≡ self.now.scenario }
        ensures setting { IsSetting self.now.scenario }
        ensures works { length self.now.pending ≡ length self.now.scenario.works }
    {
        &self.scenario
    }

    /// Where the work is pending, if it is.
    #[inline(always)]
    pub fn of(&self, w: usize) -> Option<Pending>
        ensures { result ≡ pending_at self.now.pending w }
    {
        self.pending.get(w).copied().unwrap_or(None)
    }

    /// The same of a work that there is.
    #[inline(always)]
    pub fn work(&self, w: usize) -> Option<Pending>
        requires work { w < length self.now.scenario.works }
        ensures { result ≡ pending_at self.now.pending w }
    {
        let pending = &self.pending;
        pending[w]
    }

    /// All works, by number.
    pub fn all(&self) -> &[Option<Pending>]
        ensures { result.now ≡ self.now.pending }
    {
        &self.pending
    }

    /// The timers: one of each work that waits for one.
    pub fn timers(&self) -> &Timers
        ensures { (w : ℕ) → timer_at result.now w ≡ timer_of w (pending_at self.now.pending w) }
    {
        &self.timers
    }

    /// The first work on the pool's worklist.
    #[inline(always)]
    pub fn first_listed(&self, pool: u8) -> Option<usize>
        requires pool { pool < MAX_POOLS }
        ensures first { result ≡ first_listed self.now.scenario (pending_state self.now.scenario self.now.pending) pool }
        ensures in_range { IfSome result (λ w. w < length self.now.scenario.works) }
        ensures few { IfSome result (λ w. w < MAX_WORKS) }
    {
        self.lists.front_key(usize::from(pool))
    }

    /// The work behind this one on the pool's worklist.
    pub fn listed_behind(&self, pool: u8, w: usize) -> Option<usize>
        requires pool { pool < MAX_POOLS }
        requires listed { pends (λ place. is_listed place pool) (pending_at self.now.pending w) ≡ true }
        ensures next { result ≡ listed_behind self.now.scenario self.now.pending pool w }
        ensures in_range { IfSome result (λ v. v < length self.now.scenario.works) }
        ensures few { IfSome result (λ v. v < MAX_WORKS) }
    {
        self.lists.next_key(w)
    }

    /// No two works on the pool's worklist have one stamp.
    pub fn own_stamps(&self, pool: u8)
        requires pool { pool < MAX_POOLS }
        ensures { HaveOwnStamps self.now.pending pool }
    {
        let _ = pool;
        self.lists.orders_differ();
    }

    /// The first of the queue's inactive works in the pool.
    #[inline(always)]
    pub fn first_inactive(&self, queue: u8, pool: u8) -> Option<usize>
        requires pool { pool < MAX_POOLS }
        requires queue { queue < length self.now.scenario.queues }
        ensures first { result ≡ first_inactive self.now.scenario (pending_state self.now.scenario self.now.pending) queue pool }
        ensures in_range { IfSome result (λ w. w < length self.now.scenario.works) }
        ensures few { IfSome result (λ w. w < MAX_WORKS) }
    {
        self.lists.front_key(inactive_list(queue, pool))
    }

    /// The work whose timer fires first of those that have run out by this tick.
    #[inline(always)]
    pub fn first_due(&self, time: u64) -> Option<usize>
        ensures first { result ≡ first_due self.now.scenario (record (pending_state self.now.scenario self.now.pending) { time = time }) }
        ensures in_range { IfSome result (λ w. w < length self.now.scenario.works) }
        ensures few { IfSome result (λ w. w < MAX_WORKS) }
    {
        self.timers.first_due(time).map(|work| usize::from(work.0))
    }

    /// The tick at which the first of the timers fires.
    #[inline(always)]
    pub fn next_due(&self) -> Option<u64>
        ensures { result ≡ next_due self.now.scenario self.now.pending }
    {
        self.timers.next_due()
    }

    /// How many works of the queue are listed or deferred in the pool.
    #[inline(always)]
    pub fn active(&self, queue: u8, pool: u8) -> usize
        requires pool { pool < MAX_POOLS }
        requires queue { queue < length self.now.scenario.queues }
        ensures { result ≡ pending_active self.now.scenario self.now.pending queue pool }
    {
        usize::from(self.active.at(class_in(queue, pool)))
    }

    /// Whether a work of a freezable queue is listed or deferred, in whatever pool.
    pub fn is_busy(&self) -> bool
        ensures { result ≡ not (pending_busy self.now.scenario self.now.pending == 0) }
    {
        self.busy.of(0) != 0
    }

    /// Makes a work pending that isn't. Its stamp is greater than those of all pending works.
    #[inline(always)]
    pub fn put(&mut self, w: usize, p: Pending)
        requires work { w < length self.old.scenario.works }
        requires idle { pending_at self.old.pending w ≡ None }
        requires newest { IsNewest self.old.pending p.stamp }
        ensures { self.new ≡ with_pending self.old w (Some p) }
    {
        self.pend(w, p);
    }

    /// Gives a pending work another place and stamp. The stamp is greater than those of all pending works. It is as `put`
    /// where the work isn't pending. A work that has a timer and gets another one stays in the tree of timers.
    #[inline(always)]
    pub fn list(&mut self, w: usize, p: Pending)
        requires work { w < length self.old.scenario.works }
        requires newest { IsNewest self.old.pending p.stamp }
        ensures { self.new ≡ with_pending self.old w (Some p) }
    {
        if is_timer(p.place) && self.has_timer(w) {
            self.retime(w, p);
            return;
        }
        self.take(w);
        self.pend(w, p);
    }

    /// Takes a work off, if it is pending.
    #[inline(always)]
    pub fn take(&mut self, w: usize)
        requires work { w < length self.old.scenario.works }
        ensures { self.new ≡ with_pending self.old w None }
    {
        match self.pending[w] {
            None => {}
            Some(was) => self.leave(w, was),
        }
    }

    /// Has a pending work wait in the pool for the end of its run. It keeps its stamp, and stands in no list. A work that
    /// isn't pending stays so.
    pub fn defer(&mut self, w: usize, pool: u8)
        requires work { w < length self.old.scenario.works }
        ensures { self.new ≡ with_pending self.old w (deferred_in pool (pending_at self.old.pending w)) }
    {
        match self.of(w) {
            None => {}
            Some(was) => {
                let place = Place::Deferred(pool);
                self.leave(w, was);
                self.pend(w, Pending { place, ..was });
            }
        }
    }

    /// Whether the work is pending with a timer.
    #[inline(always)]
    fn has_timer(&self, w: usize) -> bool
        requires work { w < length self.now.scenario.works }
        ensures { result ≡ pends is_timer (pending_at self.now.pending w) }
    {
        match self.pending[w] {
            None => false,
            Some(p) => is_timer(p.place),
        }
    }

    /// Makes a work pending that isn't, and has each index follow: no more of them than its place asks for.
    #[inline(always)]
    fn pend(&mut self, w: usize, p: Pending)
        requires work { w < length self.old.scenario.works }
        requires idle { pending_at self.old.pending w ≡ None }
        requires newest { IfSome (list_at (queue_of self.old.scenario w) p.place) (λ list. IsNewest self.old.pending p.stamp) }
        ensures { self.new ≡ with_pending self.old w (Some p) }
    {
        self.pending[w] = Some(p);
        start_timer(&mut self.timers, w, p);
        enlist(&self.scenario, &mut self.lists, w, p);
        count(&self.scenario, &mut self.active, &mut self.busy, w, p.place);
    }

    /// Takes off a work that is pending so, and has each index follow.
    #[inline(always)]
    fn leave(&mut self, w: usize, was: Pending)
        requires work { w < length self.old.scenario.works }
        requires was { pending_at self.old.pending w ≡ Some was }
        ensures { self.new ≡ with_pending self.old w None }
    {
        self.pending[w] = None;
        stop_timer(&mut self.timers, w, was.place);
        unlist(&mut self.lists, w, was.place);
        uncount(
            &self.scenario,
            &mut self.active,
            &mut self.busy,
            w,
            was.place,
        );
    }

    /// Gives a work that has a timer another one. Neither lists nor counts know of it.
    #[inline(always)]
    fn retime(&mut self, w: usize, p: Pending)
        requires work { w < length self.old.scenario.works }
        requires timed { pends is_timer (pending_at self.old.pending w) ≡ true }
        requires timer { is_timer p.place ≡ true }
        ensures { self.new ≡ with_pending self.old w (Some p) }
    {
        self.pending[w] = Some(p);
        replace_timer(&mut self.timers, w, p);
    }
}
