//! The idle workers.
ghost use Rattle.cmwq_idle.specs.Idle.{IsIdleBefore, last_idle_in, made_in, no_workers, pool_bits, stamp_at};
ghost use Rattle.cmwq_table.specs.State.{seat};
ghost use Rattle.cmwq_types.specs.declared.limits.TheConstants.{MAX_WORKERS};
ghost use Rattle.std.specs.Prelude.{◌≡◌, ◌<◌, ◌≤◌, ℕ, IfOk, IfSome, None, Some, if◌then◌else◌, ◌==◌, ◌+◌, length, slice_set};

use crate::link::Link;
use cmwq_types::{MAX_WORKERS, NoMemory, filled};
use std::alloc::Global;
use std::marker::Model;

/// The workers of some pools: how many each pool has made, and since which stamp which of them are idle.
///
/// From each pool's last idle worker a link leads to the one that was idle before it, and so on. All room is taken by `new` and `copy`.
#[derive(Drop)]
pub struct IdleWorkers {
    idle: Vec<Option<u64>>,
    links: Vec<Link>,
    last: Vec<Link>,
    made: Vec<u8>,
    workers: u8,
    bits: u64,
}

impl Model for IdleWorkers {
    ghost use Rattle.cmwq_idle.specs.Idle.{WorkersContents, pool_bits};
    ghost use Rattle.cmwq_idle.specs.Links.{IsKept};
    ghost use Rattle.std.specs.Prelude.{◌≡◌, length};

    ghost Value = { WorkersContents };

    ghost view = { λ i. record { idle = i.idle.items; made = i.made.items; workers = i.workers } };

    ghost invariant = { λ i. IsKept i.idle.items i.links.items i.last.items i.made.items i.workers × (i.bits ≡ pool_bits (length i.made.items)) };
}

impl IdleWorkers {
    /// So many pools, none of which has made a worker, and each of which may make so many.
    pub fn new(alloc: Global, pools: u8, workers: u8) -> Result<IdleWorkers, NoMemory>
        requires workers { workers ≤ MAX_WORKERS }
        ensures { IfOk result (λ made. made ≡ no_workers pools workers) }
    {
        let seats = MAX_WORKERS as usize * pools as usize;
        Ok(IdleWorkers {
            idle: filled(alloc, None, seats)?,
            links: filled(alloc, Link::nobody(), seats)?,
            last: filled(alloc, Link::nobody(), pools as usize)?,
            made: filled(alloc, 0, pools as usize)?,
            workers,
            bits: pool_bits(pools),
        })
    }

    /// Workers equal to these, apart from them. The only error is want of memory.
    pub fn copy(&self) -> Result<IdleWorkers, NoMemory>
        ensures { IfOk result (λ copy. copy ≡ self.now) }
    {
        let alloc = *self.made.allocator();
        Ok(IdleWorkers {
            idle: Vec::from_slice(alloc, &self.idle)?,
            links: Vec::from_slice(alloc, &self.links)?,
            last: Vec::from_slice(alloc, &self.last)?,
            made: Vec::from_slice(alloc, &self.made)?,
            workers: self.workers,
            bits: self.bits,
        })
    }

    /// The stamp from which on the worker of the pool is idle, if it is.
    pub fn since(&self, pool: u8, worker: u8) -> Option<u64>
        ensures { result ≡ stamp_at self.now.idle (seat pool worker) }
    {
        self.idle.get(seat(pool, worker)).copied().unwrap_or(None)
    }

    /// Of each worker of each pool, the stamp from which on it is idle.
    pub fn all(&self) -> &[Option<u64>]
        ensures { result.now ≡ self.now.idle }
    {
        &self.idle
    }

    /// How many workers the pool has made.
    #[inline(always)]
    pub fn made_of(&self, pool: u8) -> u8
        ensures { result ≡ made_in self.now.made pool }
    {
        self.made.get(pool as usize).copied().unwrap_or(0)
    }

    /// Of each pool, how many workers it has made.
    pub fn made(&self) -> &[u8]
        ensures { result.now ≡ self.now.made }
    {
        &self.made
    }

    /// A bit for each pool, the lowest for the first one. It is 0 where there are more pools than bits.
    #[inline(always)]
    pub fn pool_bits(&self) -> u64
        ensures { result ≡ pool_bits (length self.now.made) }
    {
        self.bits
    }

    /// The worker of the pool that became idle last.
    #[inline(always)]
    pub fn last(&self, pool: u8) -> Option<u8>
        ensures last { result ≡ last_idle_in self.now.idle self.now.workers pool }
        ensures in_range { IfSome result (λ worker. worker < self.now.workers) }
    {
        let last = self.last.get(pool as usize).copied();
        last.unwrap_or(Link::nobody()).target()
    }

    /// The worker that became idle last, or a new one where none is idle, gets work.
    #[inline(always)]
    pub fn start(&mut self, pool: u8, worker: u8)
        requires worker { worker < self.old.workers }
        requires free { IfSome (last_idle_in self.old.idle self.old.workers pool) (λ last. last ≡ worker) }
        ensures { self.new ≡ record self.old { idle = slice_set self.old.idle (seat pool worker) None; made = slice_set self.old.made pool (if worker == made_in self.old.made pool then worker + 1 else made_in self.old.made pool) } }
    {
        if (pool as usize) < self.made.len() {
            self.leave(pool, worker);
            self.make(pool, worker);
        }
    }

    /// Takes the pool's last idle worker out, if one is idle.
    #[tactic(auto)]
    #[inline(always)]
    fn leave(&mut self, pool: u8, worker: u8)
        requires pool { pool < length self.old.made }
        requires worker { worker < self.old.workers }
        requires free { IfSome (last_idle_in self.old.idle self.old.workers pool) (λ last. last ≡ worker) }
        ensures { self.new ≡ record self.old { idle = slice_set self.old.idle (seat pool worker) None } }
    {
        if self.last[pool as usize].target().is_none() {
            return;
        }
        let at = seat(pool, worker);
        self.last[pool as usize] = self.links[at];
        self.idle[at] = None;
    }

    /// Counts the worker as made, if it is the pool's next one.
    #[inline(always)]
    fn make(&mut self, pool: u8, worker: u8)
        requires pool { pool < length self.old.made }
        requires worker { worker < self.old.workers }
        ensures { self.new ≡ record self.old { made = slice_set self.old.made pool (if worker == made_in self.old.made pool then worker + 1 else made_in self.old.made pool) } }
    {
        if self.made[pool as usize] == worker {
            self.made[pool as usize] = worker + 1;
        }
    }

    /// The worker, which wasn't idle, is idle from this stamp on, after all others.
    #[inline(always)]
    pub fn retire(&mut self, pool: u8, worker: u8, stamp: u64)
        requires worker { worker < self.old.workers }
        requires working { stamp_at self.old.idle (seat pool worker) ≡ None }
        requires newest { IsIdleBefore self.old.idle stamp }
        ensures { self.new ≡ record self.old { idle = slice_set self.old.idle (seat pool worker) (Some stamp) } }
    {
        if (pool as usize) < self.last.len() {
            let at = seat(pool, worker);
            let before = self.last[pool as usize];
            self.last[pool as usize] = Link::to(worker);
            self.links[at] = before;
            self.idle[at] = Some(stamp);
        }
    }
}

/// A bit for each of so many pools. It is 0 where there are more than bits.
fn pool_bits(pools: u8) -> u64
    ensures { result ≡ pool_bits pools }
{
    if pools < 64 { (1 << pools) - 1 } else { 0 }
}

/// The number of a worker of a pool among all workers.
pub(crate) fn seat(pool: u8, worker: u8) -> usize
    ensures { result ≡ seat pool worker }
{
    MAX_WORKERS as usize * pool as usize + worker as usize
}
