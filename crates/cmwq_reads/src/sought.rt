//! What a scan of the works looks for, and the first that it finds.
ghost use Rattle.cmwq_reads.specs.Sought.{is_sought_before, is_sought};
ghost use Rattle.cmwq_table.specs.Counts.{pending_before, pending_due, pending_stamp, running_before, running_stamp, running_until};
ghost use Rattle.cmwq_table.specs.State.{pending_at, running_at};
ghost use Rattle.cmwq_types.specs.First.{by_least_two, first_below, first_with};
ghost use Rattle.cmwq_types.specs.Scenario.{queue_of};
ghost use Rattle.cmwq_types.specs.declared.limits.TheConstants.{MAX_WORKS};
ghost use Rattle.std.specs.Prelude.{◌≡◌, ◌<◌, ◌==◌, ◌&&◌, ◌||◌, IfSome, length, nat_lt, true};

use crate::workers::has_free_rescuer;
use cmwq_table::Reads;

/// What a scan of the works looks for.
#[derive(Clone, Copy)]
pub enum Sought {
    /// An inactive work of the queue in the pool.
    Inactive { queue: u8, pool: u8 },
    /// A work on the pool's worklist.
    Listed { pool: u8 },
    /// A work on the pool's worklist that doesn't run, and whose queue has a free rescuer.
    Rescued { pool: u8 },
    /// A timer that has run out.
    Due,
    /// A sleeper of the pool whose sleep is over.
    Slept { pool: u8 },
    /// A runnable work of the pool.
    Runnable { pool: u8 },
    /// A runnable work of the pool with nothing left to burn.
    Ready { pool: u8 },
}

/// The first of the works that are looked for.
pub fn first<R: Reads>(machine: &R, sought: Sought) -> Option<usize>
    ensures first { result ≡ first_below (is_sought_before (R.state machine.now) sought) (is_sought (R.loaded machine.now) (R.state machine.now) sought) (length (R.loaded machine.now).works) }
    ensures in_range { IfSome result (λ w. w < length (R.loaded machine.now).works) }
    ensures few { IfSome result (λ w. w < MAX_WORKS) }
{
    let mut first = None;
    for w in 0..machine.scenario().works.len() {
        if is_sought(machine, sought, w) {
            first = sooner(machine, sought, first, w);
        }
    }
    first
}

/// The work, or the first so far where the work doesn't come before it.
fn sooner<R: Reads>(machine: &R, sought: Sought, first: Option<usize>, w: usize) -> Option<usize>
    ensures { result ≡ first_with (is_sought_before (R.state machine.now) sought) w true first }
{
    match first {
        Some(v) if !is_sought_before(machine, sought, w, v) => Some(v),
        _ => Some(w),
    }
}

/// Whether the work is one that the scan looks for.
fn is_sought<R: Reads>(machine: &R, sought: Sought, w: usize) -> bool
    ensures { result ≡ is_sought (R.loaded machine.now) (R.state machine.now) sought w }
{
    match sought {
        Sought::Inactive { queue, pool } => {
            machine.scenario().queue_of(w) == queue
                && matches!(machine.pending_of(w), Some(p) if p.place.is_inactive(pool))
        }
        Sought::Listed { pool } => {
            matches!(machine.pending_of(w), Some(p) if p.place.is_listed(pool))
        }
        Sought::Rescued { pool } => {
            matches!(machine.pending_of(w), Some(p) if p.place.is_listed(pool))
                && machine.running_of(w).is_none()
                && has_free_rescuer(machine, machine.scenario().queue_of(w))
        }
        Sought::Due => matches!(machine.pending_of(w), Some(p) if p.place.is_due(machine.time())),
        Sought::Slept { pool } => {
            matches!(machine.running_of(w), Some(r) if r.pool == pool && r.mode.is_slept(machine.time()))
        }
        Sought::Runnable { pool } => {
            matches!(machine.running_of(w), Some(r) if r.pool == pool && r.mode.is_runnable())
        }
        Sought::Ready { pool } => {
            matches!(machine.running_of(w), Some(r) if r.pool == pool && r.mode.is_runnable() && r.left == 0)
        }
    }
}

/// Whether the one work comes before the other, in the order of the scan.
fn is_sought_before<R: Reads>(machine: &R, sought: Sought, v: usize, w: usize) -> bool
    ensures { result ≡ is_sought_before (R.state machine.now) sought v w }
{
    match sought {
        Sought::Inactive { .. } | Sought::Listed { .. } | Sought::Rescued { .. } => {
            pending_before(machine, v, w)
        }
        Sought::Due => fires_before(machine, v, w),
        Sought::Slept { .. } => wakes_before(machine, v, w),
        Sought::Runnable { .. } | Sought::Ready { .. } => running_before(machine, v, w),
    }
}

/// Whether the one pending work has its place for longer than the other.
pub fn pending_before<R: Reads>(machine: &R, v: usize, w: usize) -> bool
    ensures { result ≡ pending_before (R.state machine.now) v w }
{
    pending_stamp(machine, v) < pending_stamp(machine, w)
}

/// Whether the timer of the one work fires before that of the other.
pub fn fires_before<R: Reads>(machine: &R, v: usize, w: usize) -> bool
    ensures { result ≡ by_least_two (λ w. pending_due (pending_at (R.state machine.now) w)) (λ w. pending_stamp (pending_at (R.state machine.now) w)) v w }
{
    is_less(firing_key(machine, v), firing_key(machine, w))
}

/// Whether the one work started or woke before the other.
pub fn running_before<R: Reads>(machine: &R, v: usize, w: usize) -> bool
    ensures { result ≡ running_before (R.state machine.now) v w }
{
    running_stamp(machine, v) < running_stamp(machine, w)
}

/// Whether the one work that sleeps wakes before the other.
pub fn wakes_before<R: Reads>(machine: &R, v: usize, w: usize) -> bool
    ensures { result ≡ by_least_two (λ w. running_until (running_at (R.state machine.now) w)) (λ w. running_stamp (running_at (R.state machine.now) w)) v w }
{
    is_less(waking_key(machine, v), waking_key(machine, w))
}

/// The stamp of the place of a pending work, and 0 of any other.
fn pending_stamp<R: Reads>(machine: &R, w: usize) -> u64
    ensures { result ≡ pending_stamp (pending_at (R.state machine.now) w) }
{
    machine.pending_of(w).map_or(0, |p| p.stamp)
}

/// The firing key of a pending work, and zeros of any other.
fn firing_key<R: Reads>(machine: &R, w: usize) -> (u64, u64)
    ensures { result ≡ (pending_due (pending_at (R.state machine.now) w), pending_stamp (pending_at (R.state machine.now) w)) }
{
    machine.pending_of(w).map_or((0, 0), |p| p.firing_key())
}

/// The stamp of a running work, and 0 of any other.
fn running_stamp<R: Reads>(machine: &R, w: usize) -> u64
    ensures { result ≡ running_stamp (running_at (R.state machine.now) w) }
{
    machine.running_of(w).map_or(0, |r| r.stamp)
}

/// The waking key of a running work, and zeros of any other.
fn waking_key<R: Reads>(machine: &R, w: usize) -> (u64, u64)
    ensures { result ≡ (running_until (running_at (R.state machine.now) w), running_stamp (running_at (R.state machine.now) w)) }
{
    machine.running_of(w).map_or((0, 0), |r| r.waking_key())
}

fn is_less(a: (u64, u64), b: (u64, u64)) -> bool
    ensures { result ≡ (nat_lt a.0 b.0 || ((a.0 == b.0) && nat_lt a.1 b.1)) }
{
    a.0 < b.0 || (a.0 == b.0 && a.1 < b.1)
}
