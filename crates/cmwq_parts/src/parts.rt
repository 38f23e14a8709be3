//! What the instruction table asks of a machine's own structure.
ghost use Rattle.cmwq_parts.specs.Cpus.{HasCpu};
ghost use Rattle.cmwq_parts.specs.PoolSets.{has_pool};
ghost use Rattle.cmwq_parts.specs.SettledTicks.{AreSettled, IsSettled, ticks};
ghost use Rattle.cmwq_table.specs.Counts.{first_due, first_inactive, first_listed, first_rescued, first_slept, free_worker, has_room, is_busy, is_deferred, is_done, may_start, ready_head};
ghost use Rattle.cmwq_table.specs.Moves.{begin_again, begin_on, deferred, enlist, newborn, next_move, retire, set_timer, started_on, taking, with_depth, with_flush, with_pending, with_pressed, with_running, woken};
ghost use Rattle.cmwq_table.specs.Ready.{holding};
ghost use Rattle.cmwq_table.specs.State.{depth_at, pending_at, running_at, start};
ghost use Rattle.cmwq_table.specs.View.{view_of};
ghost use Rattle.cmwq_types.specs.Places.{is_placed};
ghost use Rattle.cmwq_types.specs.Scenario.{pool_count};
ghost use Rattle.cmwq_types.specs.Setting.{IsSetting};
ghost use Rattle.cmwq_types.specs.declared.limits.TheConstants.{MAX_OPS, MAX_WORKS, RESCUER};
ghost use Rattle.cmwq_types.specs.declared.reply.Mode.TheVariants.{Asleep};
ghost use Rattle.std.specs.Prelude.{◌≡◌, ◌<◌, ◌≤◌, ◌+◌, ◌^◌, ℕ, IfOk, IfSome, None, Some, false, is_some, length, slice_set, true};

use crate::pool_set::PoolSet;
use cmwq_reads::Sought;
use cmwq_table::{FlushTarget, Pending, Reads, Running, View};
use cmwq_types::{NoMemory, Place, Scenario};
use std::alloc::Global;
use std::sync::Arc;

/// A machine's own structure: a loaded scenario and the state of its works, workers and flushes.
///
/// It answers what the instruction table asks, by scans unless the structure has a quicker answer of its own, and makes
/// each single change that the table knows. A fresh stamp is always the next one, so a list by stamps is only ever appended
/// to. Works, queues and pools are named by their numbers, from 0; of a queue or a pool that isn't there an answer is what
/// the table's word says of the number.
pub trait Parts: Reads + Drop {
    /// The start state of the scenario, with room for all that can come.
    fn begin(alloc: Global, scenario: Arc<Scenario>) -> Result<Self, NoMemory>
        requires { IsSetting scenario.value }
        ensures { IfOk result (λ parts. holding (Self.loaded parts) (Self.state parts) ≡ holding scenario.value (start scenario.value)) };

    /// Parts in the same state, with the same room, and independent of these. The scenario is shared.
    fn copy(&self) -> Result<Self, NoMemory>
        ensures { IfOk result (λ copy. holding (Self.loaded copy) (Self.state copy) ≡ holding (Self.loaded self.now) (Self.state self.now)) };

    /// Every part of the state.
    fn look(&self) -> Result<View, NoMemory>
        ensures { IfOk result (λ view. view ≡ view_of (Self.state self.now)) };

    /// Where a work that there is is pending, if it is: as `pending_of`, and quicker where that asks whether there is one.
    fn pending(&self, w: usize) -> Option<Pending>
        requires work { w < length (Self.loaded self.now).works }
        ensures { result ≡ pending_at (Self.state self.now) w }
    {
        self.pending_of(w)
    }

    /// The same of what `running_of` tells.
    fn running(&self, w: usize) -> Option<Running>
        requires work { w < length (Self.loaded self.now).works }
        ensures { result ≡ running_at (Self.state self.now) w }
    {
        self.running_of(w)
    }

    /// The same of what `depth_of` tells.
    fn depth(&self, w: usize) -> u16
        requires work { w < length (Self.loaded self.now).works }
        ensures { result ≡ depth_at (Self.state self.now) w }
    {
        self.depth_of(w)
    }

    /// Whether one more work of the queue may be active in the pool.
    fn has_room(&self, queue: u8, pool: u8) -> bool
        ensures { result ≡ has_room (Self.loaded self.now) (Self.state self.now) queue pool }
    {
        cmwq_reads::has_room(self, queue, pool)
    }

    /// Whether a freezable queue has an active work.
    fn is_busy(&self) -> bool
        ensures { result ≡ is_busy (Self.loaded self.now) (Self.state self.now) }
    {
        cmwq_reads::is_busy(self)
    }

    /// Whether a flush on the target is done. How far it is may be kept in mind.
    fn is_done(&mut self, target: FlushTarget) -> bool
        ensures done { result ≡ is_done (Self.loaded self.old) (Self.state self.old) target }
        ensures same { holding (Self.loaded self.new) (Self.state self.new) ≡ holding (Self.loaded self.old) (Self.state self.old) }
    {
        cmwq_reads::is_done(self, target)
    }

    /// Pools among which all are that there are and have a move. What can't tell answers with all that there are.
    fn may_move(&self) -> PoolSet
        ensures covered { (pool : ℕ) → pool < pool_count (Self.loaded self.now) → is_some (next_move (Self.loaded self.now) (Self.state self.now) pool) ≡ true → has_pool result pool ≡ true }
        ensures in_range { (pool : ℕ) → pool < 64 → has_pool result pool ≡ true → pool < pool_count (Self.loaded self.now) }
    {
        PoolSet::below(self.scenario().pool_count())
    }

    /// Says that the pool has no move, which may be kept in mind.
    fn settle(&mut self, pool: u8)
        requires still { next_move (Self.loaded self.old) (Self.state self.old) pool ≡ None }
        ensures same { holding (Self.loaded self.new) (Self.state self.new) ≡ holding (Self.loaded self.old) (Self.state self.old) }
    {
        let _ = pool;
    }

    /// Whether the pool may start a work: it is unbound, or its concurrency level is 0.
    fn may_start(&self, pool: u8) -> bool
        ensures { result ≡ may_start (Self.loaded self.now) (Self.state self.now) pool }
    {
        cmwq_reads::may_start(self, pool)
    }

    /// The queue's first inactive work in the pool.
    fn first_inactive(&self, queue: u8, pool: u8) -> Option<usize>
        ensures first { result ≡ first_inactive (Self.loaded self.now) (Self.state self.now) queue pool }
        ensures in_range { IfSome result (λ w. w < length (Self.loaded self.now).works) }
    {
        cmwq_reads::first(self, Sought::Inactive { queue, pool })
    }

    /// The pool's first listed work.
    fn first_listed(&self, pool: u8) -> Option<usize>
        ensures first { result ≡ first_listed (Self.loaded self.now) (Self.state self.now) pool }
        ensures in_range { IfSome result (λ w. w < length (Self.loaded self.now).works) }
        ensures few { IfSome result (λ w. w < MAX_WORKS) }
    {
        cmwq_reads::first(self, Sought::Listed { pool })
    }

    /// The pool's first listed work that doesn't run, and whose queue has a free rescuer.
    fn first_rescued(&self, pool: u8) -> Option<usize>
        ensures first { result ≡ first_rescued (Self.loaded self.now) (Self.state self.now) pool }
        ensures in_range { IfSome result (λ w. w < length (Self.loaded self.now).works) }
        ensures few { IfSome result (λ w. w < MAX_WORKS) }
    {
        cmwq_reads::first(self, Sought::Rescued { pool })
    }

    /// The work whose timer is the first of those that have run out.
    fn first_due(&self) -> Option<usize>
        ensures first { result ≡ first_due (Self.loaded self.now) (Self.state self.now) }
        ensures in_range { IfSome result (λ w. w < length (Self.loaded self.now).works) }
        ensures few { IfSome result (λ w. w < MAX_WORKS) }
    {
        cmwq_reads::first(self, Sought::Due)
    }

    /// The pool's first sleeper whose sleep is over.
    fn first_slept(&self, pool: u8) -> Option<usize>
        ensures first { result ≡ first_slept (Self.loaded self.now) (Self.state self.now) pool }
        ensures in_range { IfSome result (λ w. w < length (Self.loaded self.now).works) }
        ensures few { IfSome result (λ w. w < MAX_WORKS) }
    {
        cmwq_reads::first(self, Sought::Slept { pool })
    }

    /// The first of the pool's heads with no tick left to burn.
    fn ready_head(&self, pool: u8) -> Option<usize>
        ensures first { result ≡ ready_head (Self.loaded self.now) (Self.state self.now) pool }
        ensures in_range { IfSome result (λ w. w < length (Self.loaded self.now).works) }
        ensures few { IfSome result (λ w. w < MAX_WORKS) }
    {
        cmwq_reads::ready_head(self, pool)
    }

    /// The worker of the pool that takes the next work: the one that became idle last, else a new one.
    fn free_worker(&self, pool: u8) -> Option<u8>
        ensures worker { result ≡ free_worker (Self.loaded self.now) (Self.state self.now) pool }
        ensures in_range { IfSome result (λ worker. worker < (Self.loaded self.now).workers) }
    {
        cmwq_reads::free_worker(self, pool)
    }

    /// Makes a new instance of a work that isn't pending, and puts it at the place. One fresh stamp is its
    /// birth and its stamp.
    fn bear(&mut self, w: usize, place: Place)
        requires work { w < length (Self.loaded self.old).works }
        requires idle { pending_at (Self.state self.old) w ≡ None }
        requires cpu { HasCpu (Self.loaded self.old) place }
        requires stamps { (Self.state self.old).next < 2 ^ 63 }
        ensures { holding (Self.loaded self.new) (Self.state self.new) ≡ holding (Self.loaded self.old) (taking (with_pending (Self.state self.old) w (newborn (Self.state self.old) place))) };

    /// Takes the pending work off. Where it had a timer, the timer's CPU is there.
    fn unpend(&mut self, w: usize, p: Pending)
        requires work { w < length (Self.loaded self.old).works }
        requires pending { pending_at (Self.state self.old) w ≡ Some p }
        ensures cpu { HasCpu (Self.loaded self.old) p.place }
        ensures unpended { holding (Self.loaded self.new) (Self.state self.new) ≡ holding (Self.loaded self.old) (with_pending (Self.state self.old) w None) };

    /// Takes the pending work with its timer off, and makes a new instance of it with another timer. One fresh stamp is its birth and
    /// its stamp.
    fn set_timer(&mut self, w: usize, p: Pending, due: u64, cpu: u8)
        requires work { w < length (Self.loaded self.old).works }
        requires pending { pending_at (Self.state self.old) w ≡ Some p }
        requires timer { is_placed p.place ≡ false }
        requires cpu { cpu < (Self.loaded self.old).cpus }
        requires stamps { (Self.state self.old).next < 2 ^ 63 }
        ensures { holding (Self.loaded self.new) (Self.state self.new) ≡ holding (Self.loaded self.old) (set_timer (with_pending (Self.state self.old) w None) w cpu due) }
    {
        self.unpend(w, p);
        self.bear(w, Place::Timer { due, cpu });
    }

    /// Lists the queue's first inactive work in the pool, under a fresh stamp.
    fn enlist(&mut self, queue: u8, pool: u8, w: usize)
        requires work { w < length (Self.loaded self.old).works }
        requires first { first_inactive (Self.loaded self.old) (Self.state self.old) queue pool ≡ Some w }
        requires stamps { (Self.state self.old).next < 2 ^ 63 }
        ensures { holding (Self.loaded self.new) (Self.state self.new) ≡ holding (Self.loaded self.old) (enlist (Self.state self.old) pool (Some w)) };

    /// Puts off the pool's first listed work, which runs: it waits where it runs. Its stamp stays.
    fn defer(&mut self, pool: u8, w: usize)
        requires work { w < length (Self.loaded self.old).works }
        requires first { first_listed (Self.loaded self.old) (Self.state self.old) pool ≡ Some w }
        requires runs { is_some (running_at (Self.state self.old) w) ≡ true }
        ensures { holding (Self.loaded self.new) (Self.state self.new) ≡ holding (Self.loaded self.old) (deferred (Self.state self.old) pool w (pending_at (Self.state self.old) w)) };

    /// Starts the pool's first listed work, which doesn't run, on the free worker.
    fn start_on(&mut self, pool: u8, w: usize, worker: u8, p: Pending)
        requires work { w < length (Self.loaded self.old).works }
        requires worker { worker < (Self.loaded self.old).workers }
        requires first { first_listed (Self.loaded self.old) (Self.state self.old) pool ≡ Some w }
        requires free { free_worker (Self.loaded self.old) (Self.state self.old) pool ≡ Some worker }
        requires pending { pending_at (Self.state self.old) w ≡ Some p }
        requires still { running_at (Self.state self.old) w ≡ None }
        requires stamps { (Self.state self.old).next < 2 ^ 63 }
        ensures { holding (Self.loaded self.new) (Self.state self.new) ≡ holding (Self.loaded self.old) (started_on (Self.state self.old) pool w worker p) };

    /// Starts the pool's first listed work that doesn't run and whose queue has a free rescuer, on that
    /// rescuer.
    fn rescue(&mut self, pool: u8, w: usize, p: Pending)
        requires work { w < length (Self.loaded self.old).works }
        requires first { first_rescued (Self.loaded self.old) (Self.state self.old) pool ≡ Some w }
        requires pending { pending_at (Self.state self.old) w ≡ Some p }
        requires stamps { (Self.state self.old).next < 2 ^ 63 }
        ensures { holding (Self.loaded self.new) (Self.state self.new) ≡ holding (Self.loaded self.old) (begin_on (Self.state self.old) w pool RESCUER p) };

    /// The running work, the ready head of its pool, goes on to the next operation, with so many ticks to
    /// burn first.
    fn go_on(&mut self, w: usize, r: Running, left: u32)
        requires work { w < length (Self.loaded self.old).works }
        requires running { running_at (Self.state self.old) w ≡ Some r }
        requires head { ready_head (Self.loaded self.old) (Self.state self.old) r.pool ≡ Some w }
        requires pc { r.pc < MAX_OPS }
        ensures { holding (Self.loaded self.new) (Self.state self.new) ≡ holding (Self.loaded self.old) (with_running (Self.state self.old) w (Some (record r { pc = r.pc + 1; left = left }))) };

    /// The running work, the ready head of its pool, goes on to the next operation, and sleeps until this
    /// time first.
    fn sleep(&mut self, w: usize, r: Running, until: u64)
        requires work { w < length (Self.loaded self.old).works }
        requires running { running_at (Self.state self.old) w ≡ Some r }
        requires head { ready_head (Self.loaded self.old) (Self.state self.old) r.pool ≡ Some w }
        requires pc { r.pc < MAX_OPS }
        ensures { holding (Self.loaded self.new) (Self.state self.new) ≡ holding (Self.loaded self.old) (with_running (Self.state self.old) w (Some (record r { pc = r.pc + 1; mode = Asleep until }))) };

    /// Wakes the pool's first sleeper whose sleep is over, under a fresh stamp.
    fn wake(&mut self, pool: u8, w: usize)
        requires work { w < length (Self.loaded self.old).works }
        requires first { first_slept (Self.loaded self.old) (Self.state self.old) pool ≡ Some w }
        requires stamps { (Self.state self.old).next < 2 ^ 63 }
        ensures { holding (Self.loaded self.new) (Self.state self.new) ≡ holding (Self.loaded self.old) (woken (Self.state self.old) w (running_at (Self.state self.old) w)) };

    /// The running work ends, and its deferred instance begins on the same worker, under a fresh stamp.
    fn begin_again(&mut self, w: usize, r: Running, p: Pending)
        requires work { w < length (Self.loaded self.old).works }
        requires running { running_at (Self.state self.old) w ≡ Some r }
        requires head { ready_head (Self.loaded self.old) (Self.state self.old) r.pool ≡ Some w }
        requires pending { pending_at (Self.state self.old) w ≡ Some p }
        requires deferred { is_deferred p.place ≡ true }
        requires stamps { (Self.state self.old).next < 2 ^ 63 }
        ensures { holding (Self.loaded self.new) (Self.state self.new) ≡ holding (Self.loaded self.old) (begin_again (Self.state self.old) w r p) };

    /// The running work ends, and its worker is idle from a fresh stamp on. A rescuer is free, and takes no
    /// stamp.
    fn retire(&mut self, w: usize, r: Running)
        requires work { w < length (Self.loaded self.old).works }
        requires running { running_at (Self.state self.old) w ≡ Some r }
        requires head { ready_head (Self.loaded self.old) (Self.state self.old) r.pool ≡ Some w }
        requires stamps { (Self.state self.old).next < 2 ^ 63 }
        ensures { holding (Self.loaded self.new) (Self.state self.new) ≡ holding (Self.loaded self.old) (retire (Self.state self.old) w r) };

    /// Where no timer is due and no pool has a move, lets at least one tick pass and at most so many, before each of which that is so: who
    /// has a CPU burns. Answers how many.
    fn pass(&mut self, most: u32) -> u32
        requires time { (Self.state self.old).time < 2 ^ 63 }
        requires settled { IsSettled (Self.loaded self.old) (Self.state self.old) }
        requires some { 0 < most }
        ensures some { 0 < result }
        ensures few { result ≤ most }
        ensures settled { AreSettled (Self.loaded self.old) (Self.state self.old) result }
        ensures passed { holding (Self.loaded self.new) (Self.state self.new) ≡ holding (Self.loaded self.old) (ticks (Self.loaded self.old) (Self.state self.old) result) };

    /// Sets how much more often the work was disabled than enabled.
    fn set_depth(&mut self, w: usize, depth: u16)
        requires work { w < length (Self.loaded self.old).works }
        ensures { holding (Self.loaded self.new) (Self.state self.new) ≡ holding (Self.loaded self.old) (with_depth (Self.state self.old) w depth) };

    /// Sets the queue's `max_active`.
    fn set_max(&mut self, queue: u8, max: u16)
        requires queue { queue < length (Self.loaded self.old).queues }
        ensures { holding (Self.loaded self.new) (Self.state self.new) ≡ holding (Self.loaded self.old) (record (Self.state self.old) { max = slice_set (Self.state self.old).max queue max }) };

    /// Sets whether there is a freeze.
    fn set_frozen(&mut self, frozen: bool)
        ensures { holding (Self.loaded self.new) (Self.state self.new) ≡ holding (Self.loaded self.old) (record (Self.state self.old) { frozen = frozen }) };

    /// Sets whether there is memory pressure.
    fn set_pressed(&mut self, pressed: bool)
        ensures { holding (Self.loaded self.new) (Self.state self.new) ≡ holding (Self.loaded self.old) (with_pressed (Self.state self.old) pressed) };

    /// Gives a flush on the target, under the next number.
    fn push_flush(&mut self, target: FlushTarget)
        requires room { length (Self.state self.old).flushes < (Self.loaded self.old).flushes }
        ensures { holding (Self.loaded self.new) (Self.state self.new) ≡ holding (Self.loaded self.old) (with_flush (Self.state self.old) target) };

    /// Counts so many more instructions as spent.
    fn spend(&mut self, count: u32)
        requires left { (Self.state self.old).spent + count ≤ (Self.loaded self.old).steps }
        ensures { holding (Self.loaded self.new) (Self.state self.new) ≡ holding (Self.loaded self.old) (record (Self.state self.old) { spent = (Self.state self.old).spent + count }) };

    /// Takes so many fresh stamps, and gives them to nobody.
    fn skip_stamps(&mut self, count: u32)
        requires stamps { (Self.state self.old).next < 2 ^ 63 }
        ensures { holding (Self.loaded self.new) (Self.state self.new) ≡ holding (Self.loaded self.old) (record (Self.state self.old) { next = (Self.state self.old).next + count }) };
}
