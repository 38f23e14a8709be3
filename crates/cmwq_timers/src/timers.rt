//! The timers.
ghost use Rattle.cmwq_timers.specs.Timers.{due_by, least_timer, timer_at, without_timer};
ghost use Rattle.cmwq_timers.specs.Tree.{IsKept};
ghost use Rattle.std.specs.Prelude.{◌≡◌, ◌<◌, IfOk, IfSome, length, None, is_some, option_map, replicate, slice_set, Some, true};

use crate::changing::change;
use crate::rank::{LAST_STAMP, due_in, rank_of, work_in};
use crate::scan::first_scanned;
use crate::timer::Timer;
use crate::tree::{lower, raise};
use cmwq_types::{NoMemory, WorkId, filled};
use std::alloc::Global;
use std::marker::Model;

/// A timer for each of some works, the works numbered from 0.
///
/// Beside the timers stands a tree of their ranks: each work has a leaf, and each node above has the lesser of the two ranks below it, so node
/// 1, the root, has the least of all, in which the work stands. A change of one timer is carried up from its leaf, no further than to a node that
/// keeps its rank. All room is taken by `new` and `copy`.
#[derive(Drop)]
pub struct Timers {
    timers: Vec<Option<Timer>>,
    ranks: Vec<u128>,
}

impl Model for Timers {
    ghost use Rattle.std.specs.Prelude.{List, Option};
    ghost use Rattle.cmwq_timers.specs.declared.timer.Timer.{Timer};

    ghost Value = { List (Option Timer) };

    ghost use Rattle.cmwq_timers.specs.Tree.{IsKept};

    ghost view = { λ t. t.timers.items };

    ghost invariant = { λ t. IsKept t.timers.items t.ranks.items };
}

impl Timers {
    /// No timers, with room for those of the works of lesser numbers than this. It wants memory, and nothing
    /// else of the timers does but a copy.
    pub fn new(alloc: Global, capacity: u16) -> Result<Timers, NoMemory>
        ensures empty { IfOk result (λ made. made ≡ replicate capacity None) }
    {
        let works = usize::from(capacity);
        let timers = filled(alloc, None, works)?;
        let ranks = filled(alloc, rank_of(None), 2 * works)?;
        Ok(Timers { timers, ranks })
    }

    /// Timers equal to these, with the same room. The only error is want of memory.
    pub fn copy(&self) -> Result<Timers, NoMemory>
        ensures { IfOk result (λ copy. copy ≡ self.now) }
    {
        let alloc = *self.timers.allocator();
        let timers = Vec::from_slice(alloc, &self.timers)?;
        let ranks = Vec::from_slice(alloc, &self.ranks)?;
        Ok(Timers { timers, ranks })
    }

    /// Starts a work's timer.
    #[inline(always)]
    pub fn put(&mut self, timer: Timer)
        requires room { timer.work.0 < length self.old }
        requires absent { timer_at self.old timer.work.0 ≡ None }
        ensures put { self.new ≡ slice_set self.old timer.work.0 (Some timer) }
    {
        let Timers { timers, ranks } = self;
        let work = usize::from(timer.work.0);
        timers[work] = Some(timer);
        lower(ranks, timers.len() + work, rank_of(Some(timer)));
    }

    /// Gives a work this timer, in place of its own if it has one.
    #[inline(always)]
    pub fn replace(&mut self, timer: Timer)
        requires room { timer.work.0 < length self.old }
        ensures { self.new ≡ slice_set self.old timer.work.0 (Some timer) }
    {
        let Timers { timers, ranks } = self;
        let at = usize::from(timer.work.0);
        let later = Some(timer);
        timers[at] = later;
        change(ranks, timers.len() + at, rank_of(later));
    }

    /// Takes a work's timer away, if it has one.
    pub fn take(&mut self, work: WorkId) -> Option<Timer>
        ensures taken { result ≡ timer_at self.old work.0 }
        ensures rest { self.new ≡ slice_set self.old work.0 None }
    {
        let timer = self.get(work)?;
        self.stop(work);
        Some(timer)
    }

    /// Takes a work's timer away, if it has one, and tells nothing of it: so it is quicker than `take`.
    #[inline(always)]
    pub fn stop(&mut self, work: WorkId)
        requires room { work.0 < length self.old }
        ensures { self.new ≡ slice_set self.old work.0 None }
    {
        let Timers { timers, ranks } = self;
        let work = usize::from(work.0);
        timers[work] = None;
        raise(ranks, timers.len() + work);
    }

    /// The timer that fires next: the least by due and then stamp, and of equal ones that of the work of
    /// least number.
    pub fn least(&self) -> Option<Timer>
        ensures least { result ≡ least_timer self.now }
        ensures own { IfSome result (λ timer. timer_at self.now timer.work.0 ≡ Some timer) }
    {
        let rank = self.ranks.get(1)?;
        let timer = self.get(WorkId((*rank % (1 << 16)) as u16))?;
        if timer.stamp >= LAST_STAMP {
            return *self.timers.get(first_scanned(&self.timers))?;
        }
        Some(timer)
    }

    /// The work whose timer fires next, if that is due by this tick. Ranks tell it, and no timer is looked at, but where stamps have one rank.
    #[inline(always)]
    pub fn first_due(&self, tick: u64) -> Option<WorkId>
        ensures first { result ≡ option_map (λ timer. timer.work) (due_by tick (least_timer self.now)) }
        ensures in_range { IfSome result (λ work. work.0 < length self.now) }
        ensures own { IfSome result (λ work. is_some (timer_at self.now work.0) ≡ true) }
    {
        let rank = *self.ranks.get(1)?;
        if due_in(rank) > tick {
            return None;
        }
        if rank % (1 << 64) >= u128::from(LAST_STAMP) * (1 << 16) {
            return self.least_due(tick);
        }
        Some(work_in(rank))
    }

    /// The same by the timers: it is asked for only where stamps come to 2^48 - 1.
    #[cold]
    #[inline(never)]
    fn least_due(&self, tick: u64) -> Option<WorkId>
        ensures first { result ≡ option_map (λ timer. timer.work) (due_by tick (least_timer self.now)) }
        ensures in_range { IfSome result (λ work. work.0 < length self.now) }
        ensures own { IfSome result (λ work. is_some (timer_at self.now work.0) ≡ true) }
    {
        let timer = self.least()?;
        if timer.due > tick {
            return None;
        }
        Some(timer.work)
    }

    /// When the timer that fires next is due, if there is one.
    #[inline(always)]
    pub fn next_due(&self) -> Option<u64>
        ensures { result ≡ option_map (λ timer. timer.due) (least_timer self.now) }
    {
        let rank = *self.ranks.get(1)?;
        if rank == u128::MAX {
            return None;
        }
        Some(due_in(rank))
    }

    /// Takes away the timer that fires next, if it is due by this tick.
    pub fn take_due(&mut self, now: u64) -> Option<Timer>
        ensures taken { result ≡ due_by now (least_timer self.old) }
        ensures rest { self.new ≡ without_timer self.old result }
    {
        let timer = self.least()?;
        if timer.due > now {
            return None;
        }
        self.stop(timer.work);
        Some(timer)
    }

    /// A work's timer, if it has one.
    pub fn get(&self, work: WorkId) -> Option<Timer>
        ensures timer { result ≡ timer_at self.now work.0 }
        ensures own { IfSome result (λ timer. timer.work ≡ work) }
    {
        *self.timers.get(usize::from(work.0))?
    }
}
