//! The alarms.
ghost use Rattle.cmwq_timers.specs.AlarmRanks.{IsFirstRank};
ghost use Rattle.cmwq_timers.specs.Alarms.{alarm_at, first_to_ring, if_rings_by, ring_of};
ghost use Rattle.std.specs.Prelude.{◌≡◌, ◌<◌, ◌^◌, IfOk, IfSome, None, Some, length, option_map, replicate, slice_set};

use crate::alarm_ranks::{FIRST_LATE_RANK, NO_ALARM, alarm_rank, alarm_work, tick_in};
use crate::alarm_scan::{first_due_scanned, next_due_scanned};
use crate::alarm_tree::{lower_alarm, raise_alarm};
use cmwq_types::{NoMemory, WorkId, filled};
use std::alloc::Global;
use std::marker::Model;

/// When an alarm of each of some works rings, if it has one, the works numbered from 0.
///
/// Above the alarms stands a tree of their ranks, as above timers, but of 64 bits: in a work's leaf stand the tick, in 48, and the work, in 16, or
/// all ones. So a step up takes half as long. Ticks from 2^48 - 1 on are one tick there: so each is kept whole beside the tree, and is looked at
/// only where the first rank has that one. What is kept for a work without an alarm tells nothing. All room is taken by `new` and `copy`.
///
/// One alarm may stand in front of the tree, and then its leaf has none: `front` is its rank, or that of no alarm. An alarm goes there if none stands
/// there and it rings before all in the tree: mostly it is the next to be stopped, and then neither wants a step up the tree. One that is set later
/// may ring sooner, and goes into the tree: so the first of all is the lesser of `front` and the root.
#[derive(Drop)]
pub struct Alarms {
    front: u64,
    ticks: Vec<u64>,
    ranks: Vec<u64>,
}

impl Model for Alarms {
    ghost use Rattle.std.specs.Prelude.{List, Option, ℕ};

    ghost Value = { List (Option ℕ) };

    ghost use Rattle.cmwq_timers.specs.AlarmRanks.{AreKept, alarms_in, with_front};

    ghost view = { λ a. alarms_in a.ticks.items (with_front a.front a.ranks.items) };

    ghost invariant = { λ a. AreKept a.front a.ticks.items a.ranks.items };
}

impl Alarms {
    /// No alarms, with room for those of the works of lesser numbers than this. It wants memory, and nothing else of the alarms does but a copy.
    pub fn new(alloc: Global, capacity: u16) -> Result<Alarms, NoMemory>
        ensures empty { IfOk result (λ made. made ≡ replicate capacity None) }
    {
        let works = usize::from(capacity);
        let ticks = filled(alloc, 0, works)?;
        let ranks = filled(alloc, NO_ALARM, 2 * works.max(1))?;
        Ok(Alarms {
            front: NO_ALARM,
            ticks,
            ranks,
        })
    }

    /// Alarms equal to these, with the same room. The only error is want of memory.
    pub fn copy(&self) -> Result<Alarms, NoMemory>
        ensures { IfOk result (λ copy. copy ≡ self.now) }
    {
        let alloc = *self.ticks.allocator();
        let ticks = Vec::from_slice(alloc, &self.ticks)?;
        let ranks = Vec::from_slice(alloc, &self.ranks)?;
        Ok(Alarms {
            front: self.front,
            ticks,
            ranks,
        })
    }

    /// Sets the alarm of a work that has none to this tick.
    #[inline(always)]
    pub fn set(&mut self, work: WorkId, tick: u64)
        requires room { work.0 < length self.old }
        requires absent { alarm_at self.old work.0 ≡ None }
        ensures set { self.new ≡ slice_set self.old work.0 (Some tick) }
    {
        let Alarms {
            front,
            ticks,
            ranks,
        } = self;
        let at = usize::from(work.0);
        ticks[at] = tick;
        let rank = alarm_rank(work, tick);
        let goes_in_front = *front == NO_ALARM && rank < ranks[1];
        if goes_in_front {
            *front = rank;
        } else {
            lower_alarm(ranks, ticks.len() + at, rank);
        }
    }

    /// Takes a work's alarm away, if it has one.
    #[inline(always)]
    pub fn stop(&mut self, work: WorkId)
        requires room { work.0 < length self.old }
        ensures { self.new ≡ slice_set self.old work.0 None }
    {
        let Alarms {
            front,
            ticks,
            ranks,
        } = self;
        if alarm_work(*front).0 == work.0 {
            *front = NO_ALARM;
        } else {
            raise_alarm(ranks, ticks.len() + usize::from(work.0));
        }
    }

    /// The work whose alarm rings first, the one of least number where several do, if it rings by this tick. It's quick where none does.
    #[inline(always)]
    pub fn first_due(&self, tick: u64) -> Option<WorkId>
        ensures first { option_map (λ work. work.0) result ≡ if_rings_by self.now tick (first_to_ring self.now) }
        ensures in_range { IfSome result (λ work. work.0 < length self.now) }
    {
        let rank = self.first_rank();
        if tick_in(rank) > tick {
            return None;
        }
        if rank >= FIRST_LATE_RANK {
            return first_due_scanned(self, tick);
        }
        Some(alarm_work(rank))
    }

    /// When the first alarm rings, if there is one.
    #[inline(always)]
    pub fn next_due(&self) -> Option<u64>
        ensures { result ≡ ring_of self.now (first_to_ring self.now) }
    {
        let rank = self.first_rank();
        if rank < FIRST_LATE_RANK {
            return Some(tick_in(rank));
        }
        if rank == NO_ALARM {
            return None;
        }
        next_due_scanned(self)
    }

    /// The rank of the first alarm, or that of no alarm. Where it is late, the first to ring may be another.
    #[inline(always)]
    fn first_rank(&self) -> u64
        ensures first { IsFirstRank self.now result }
        ensures few { length self.now < 2 ^ 16 }
    {
        self.front.min(self.ranks[1])
    }

    /// When a work's alarm rings, if it has one.
    pub(crate) fn get(&self, w: usize) -> Option<u64>
        requires work { w < length self.now }
        ensures { result ≡ alarm_at self.now w }
    {
        if self.ranks[self.ticks.len() + w] == NO_ALARM
            && usize::from(alarm_work(self.front).0) != w
        {
            return None;
        }
        Some(self.ticks[w])
    }

    /// For how many works there is room.
    pub(crate) fn len(&self) -> usize
        ensures works { result ≡ length self.now }
        ensures few { result < 2 ^ 16 }
    {
        self.ticks.len()
    }
}
