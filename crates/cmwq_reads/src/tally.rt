//! What a scan of the works counts.
ghost use Rattle.cmwq_reads.specs.Tally.{is_counted_by};
ghost use Rattle.cmwq_table.specs.Counts.{active, counted, has_room, is_busy, is_busy_work, is_counted, limit, may_start};
ghost use Rattle.cmwq_types.specs.First.{count_below};
ghost use Rattle.cmwq_types.specs.Scenario.{flags_at, queue_of};
ghost use Rattle.cmwq_types.specs.declared.limits.TheConstants.{MAX_WORKS};
ghost use Rattle.std.specs.Prelude.{◌≡◌, ◌≤◌, length};

use crate::flushes::has_instance_before;
use cmwq_table::Reads;
use cmwq_types::RESCUER;

/// What a scan of the works counts.
#[derive(Clone, Copy)]
pub enum Tally {
    /// A pending work of the queue that is listed or deferred in the pool.
    ActivePending { queue: u8, pool: u8 },
    /// A work of the queue that runs in the pool.
    ActiveRunning { queue: u8, pool: u8 },
    /// A runnable work of the pool that counts towards its concurrency level.
    Counted { pool: u8 },
    /// A work of the queue with an instance that was queued before.
    QueuedBefore { queue: u8, bound: u64 },
    /// A work of the queue that runs on its rescuer.
    Rescued { queue: u8 },
    /// A work of a freezable queue that is listed, deferred or runs.
    Busy,
}

/// How many works are counted.
pub fn count<R: Reads>(machine: &R, tally: Tally) -> usize
    ensures count { result ≡ count_below (is_counted_by (R.loaded machine.now) (R.state machine.now) tally) (length (R.loaded machine.now).works) }
    ensures few { result ≤ MAX_WORKS }
{
    let mut count = 0;
    for w in 0..machine.scenario().works.len() {
        if is_counted_by(machine, tally, w) {
            count += 1;
        }
    }
    count
}

/// Whether the work is one that is counted.
fn is_counted_by<R: Reads>(machine: &R, tally: Tally, w: usize) -> bool
    ensures { result ≡ is_counted_by (R.loaded machine.now) (R.state machine.now) tally w }
{
    let scenario = machine.scenario();
    match tally {
        Tally::ActivePending { queue, pool } => {
            scenario.queue_of(w) == queue
                && matches!(machine.pending_of(w), Some(p) if p.place.is_active(pool))
        }
        Tally::ActiveRunning { queue, pool } => {
            scenario.queue_of(w) == queue
                && matches!(machine.running_of(w), Some(r) if r.pool == pool)
        }
        Tally::Counted { pool } => is_counted(machine, pool, w),
        Tally::QueuedBefore { queue, bound } => {
            scenario.queue_of(w) == queue && has_instance_before(machine, w, bound)
        }
        Tally::Rescued { queue } => {
            scenario.queue_of(w) == queue
                && matches!(machine.running_of(w), Some(r) if r.worker == RESCUER)
        }
        Tally::Busy => is_busy_work(machine, w),
    }
}

/// Whether the work is a runnable one of the pool that counts towards its concurrency level.
pub fn is_counted<R: Reads>(machine: &R, pool: u8, w: usize) -> bool
    ensures { result ≡ is_counted (R.loaded machine.now) (R.state machine.now) pool w }
{
    matches!(machine.running_of(w), Some(r) if r.pool == pool && r.mode.is_runnable())
        && !is_intensive(machine, w)
}

/// Whether the work is listed, deferred or runs, and its queue is freezable.
fn is_busy_work<R: Reads>(machine: &R, w: usize) -> bool
    ensures { result ≡ is_busy_work (R.loaded machine.now) (R.state machine.now) w }
{
    let scenario = machine.scenario();
    scenario.flags_of(scenario.queue_of(w)).freezable
        && (matches!(machine.pending_of(w), Some(p) if p.place.is_activated())
            || machine.running_of(w).is_some())
}

/// Whether the work's queue is CPU-intensive.
fn is_intensive<R: Reads>(machine: &R, w: usize) -> bool
    ensures { result ≡ (flags_at (R.loaded machine.now) (queue_of (R.loaded machine.now) w)).cpu_intensive }
{
    let scenario = machine.scenario();
    scenario.flags_of(scenario.queue_of(w)).cpu_intensive
}

/// The concurrency level of the pool: 0 where it is unbound.
pub fn level<R: Reads>(machine: &R, pool: u8) -> usize
    ensures { result ≡ counted (R.loaded machine.now) (R.state machine.now) pool }
{
    if machine.scenario().is_unbound(pool) {
        return 0;
    }
    count(machine, Tally::Counted { pool })
}

/// Whether the pool may start a work: it is unbound, or its concurrency level is 0.
pub fn may_start<R: Reads>(machine: &R, pool: u8) -> bool
    ensures { result ≡ may_start (R.loaded machine.now) (R.state machine.now) pool }
{
    machine.scenario().is_unbound(pool) || count(machine, Tally::Counted { pool }) == 0
}

/// How many works of the queue may be active in a pool.
#[inline(always)]
pub fn limit<R: Reads>(machine: &R, queue: u8) -> u16
    ensures { result ≡ limit (R.loaded machine.now) (R.state machine.now) queue }
{
    if machine.is_frozen() && machine.scenario().flags_of(queue).freezable {
        0
    } else {
        machine.max_of(queue)
    }
}

/// How many instances of the queue are active in the pool: listed, deferred or running.
pub fn active<R: Reads>(machine: &R, queue: u8, pool: u8) -> usize
    ensures { result ≡ active (R.loaded machine.now) (R.state machine.now) queue pool }
{
    count(machine, Tally::ActivePending { queue, pool })
        + count(machine, Tally::ActiveRunning { queue, pool })
}

/// Whether one more work of the queue may be active in the pool.
pub fn has_room<R: Reads>(machine: &R, queue: u8, pool: u8) -> bool
    ensures { result ≡ has_room (R.loaded machine.now) (R.state machine.now) queue pool }
{
    active(machine, queue, pool) < limit(machine, queue) as usize
}

/// Whether a freezable queue has an active work.
pub fn is_busy<R: Reads>(machine: &R) -> bool
    ensures { result ≡ is_busy (R.loaded machine.now) (R.state machine.now) }
{
    count(machine, Tally::Busy) != 0
}
