//! The worker, or the rescuer, that takes the next work.
ghost use Rattle.cmwq_table.specs.Counts.{free_worker, has_free_rescuer, idle_stamp, last_idle, new_worker};
ghost use Rattle.cmwq_table.specs.State.{idle_at};
ghost use Rattle.cmwq_types.specs.First.{by_greatest, first_with};
ghost use Rattle.std.specs.Prelude.{◌≡◌, ◌<◌, IfSome, true};

use crate::tally::{Tally, count};
use cmwq_table::Reads;

/// The worker of the pool that takes the next work: the one that became idle last, else a new one.
pub fn free_worker<R: Reads>(machine: &R, pool: u8) -> Option<u8>
    ensures worker { result ≡ free_worker (R.loaded machine.now) (R.state machine.now) pool }
    ensures in_range { IfSome result (λ worker. worker < (R.loaded machine.now).workers) }
{
    match last_idle(machine, pool) {
        Some(worker) => Some(worker),
        None => new_worker(machine, pool),
    }
}

/// The pool's idle worker of greatest stamp.
pub fn last_idle<R: Reads>(machine: &R, pool: u8) -> Option<u8>
    ensures first { result ≡ last_idle (R.loaded machine.now) (R.state machine.now) pool }
    ensures in_range { IfSome result (λ worker. worker < (R.loaded machine.now).workers) }
{
    let mut last = None;
    for worker in 0..machine.scenario().workers {
        if machine.idle_of(pool, worker).is_some() {
            last = later(machine, pool, last, worker);
        }
    }
    last
}

/// The worker, or the last idle one so far where the worker wasn't idle later.
fn later<R: Reads>(machine: &R, pool: u8, last: Option<u8>, worker: u8) -> Option<u8>
    ensures { result ≡ first_with (by_greatest (λ worker. idle_stamp (idle_at (R.state machine.now) pool worker))) worker true last }
{
    match last {
        Some(other) if idle_since(machine, pool, worker) <= idle_since(machine, pool, other) => {
            Some(other)
        }
        _ => Some(worker),
    }
}

/// The stamp from which on the worker of the pool is idle, and 0 of a worker that isn't.
pub fn idle_since<R: Reads>(machine: &R, pool: u8, worker: u8) -> u64
    ensures { result ≡ idle_stamp (idle_at (R.state machine.now) pool worker) }
{
    machine.idle_of(pool, worker).unwrap_or(0)
}

/// The number of a new worker, if one can be made.
pub fn new_worker<R: Reads>(machine: &R, pool: u8) -> Option<u8>
    ensures worker { result ≡ new_worker (R.loaded machine.now) (R.state machine.now) pool }
    ensures in_range { IfSome result (λ worker. worker < (R.loaded machine.now).workers) }
{
    let made = machine.made_of(pool);
    if !machine.is_pressed() && made < machine.scenario().workers {
        Some(made)
    } else {
        None
    }
}

/// Whether the queue has a rescuer that none of its works runs on.
pub fn has_free_rescuer<R: Reads>(machine: &R, queue: u8) -> bool
    ensures { result ≡ has_free_rescuer (R.loaded machine.now) (R.state machine.now) queue }
{
    machine.scenario().flags_of(queue).mem_reclaim && count(machine, Tally::Rescued { queue }) == 0
}
