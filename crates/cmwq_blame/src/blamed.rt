//! Whom a reason blames, asked work by work.
ghost use Rattle.cmwq_blame.specs.Blame.{blames, blames_nobody};
ghost use Rattle.cmwq_reasons.specs.Reasons.{work_of};
ghost use Rattle.cmwq_blame.specs.Table.{is_holder, is_on_worker};
ghost use Rattle.cmwq_table.specs.Counts.{is_counted, is_rescuer, runs};
ghost use Rattle.cmwq_table.specs.State.{running_at};
ghost use Rattle.std.specs.Prelude.{◌≡◌, ◌<◌, ◌&&◌, ◌==◌, false, length, nat_lt, not, true, ℕ};

use cmwq_reads::is_counted;
use cmwq_reasons::{Instance, Reason};
use cmwq_table::Reads;
use cmwq_types::{RESCUER, WorkId};

/// Whether the reason, which is one of the work `w`, blames an instance of the work `v`.
pub(crate) fn blames<R: Reads>(machine: &R, w: WorkId, reason: Reason, v: usize) -> bool
    ensures { result ≡ blames (R.loaded machine.now) (R.state machine.now) w.0 reason v }
{
    let queue = machine.scenario().queue_of(w.0 as usize);
    match reason {
        Reason::WakesAfter(first) | Reason::ReadyAfter(first) | Reason::After { pool: _, first } =>
            work_of(first) == v,
        Reason::Behind(u) | Reason::HighHas(u) => u.0 as usize == v,
        Reason::Deferred(_) => w.0 as usize == v,
        Reason::Inactive(pool) => is_holder(machine, queue, pool, v),
        Reason::Held(pool) => is_holding(machine, pool, v),
        Reason::NoWorker(pool) => is_on_worker(machine, queue, pool, v),
        _ => false,
    }
}

/// Whether the reason, which is one of the work, blames nobody.
pub(crate) fn blames_nobody<R: Reads>(machine: &R, w: WorkId, reason: Reason) -> bool
    ensures { result ≡ blames_nobody (R.loaded machine.now) (R.state machine.now) w.0 reason }
{
    match reason {
        Reason::WakesAfter(_)
        | Reason::ReadyAfter(_)
        | Reason::After { .. }
        | Reason::Behind(_)
        | Reason::HighHas(_)
        | Reason::Deferred(_) => false,
        Reason::Inactive(_) | Reason::Held(_) | Reason::NoWorker(_) => {
            !blames_some(machine, w, reason)
        }
        _ => true,
    }
}

/// Whether the reason, which is one of the work, blames one of the works.
fn blames_some<R: Reads>(machine: &R, w: WorkId, reason: Reason) -> bool
    ensures some { result ≡ true → (v : ℕ) × (blames (R.loaded machine.now) (R.state machine.now) w.0 reason v ≡ true) }
    ensures none { result ≡ false → (v : ℕ) → v < length (R.loaded machine.now).works → blames (R.loaded machine.now) (R.state machine.now) w.0 reason v ≡ false }
{
    for v in 0..machine.scenario().works.len() {
        if blames(machine, w, reason, v) {
            return true;
        }
    }
    false
}

fn work_of(instance: Instance) -> usize
    ensures { result ≡ work_of instance }
{
    match instance {
        Instance::Pending(w) | Instance::Running(w) => w.0 as usize,
    }
}

/// Whether there is such a work.
fn is_work<R: Reads>(machine: &R, v: usize) -> bool
    ensures { result ≡ nat_lt v (length (R.loaded machine.now).works) }
{
    v < machine.scenario().works.len()
}

/// Whether there is such a work, which is of the queue, and active in the pool.
fn is_holder<R: Reads>(machine: &R, queue: u8, pool: u8, v: usize) -> bool
    ensures { result ≡ (nat_lt v (length (R.loaded machine.now).works) && is_holder (R.loaded machine.now) (R.state machine.now) queue pool v) }
{
    is_work(machine, v)
        && machine.scenario().queue_of(v) == queue
        && (matches!(machine.running_of(v), Some(r) if r.pool == pool)
            || matches!(machine.pending_of(v), Some(p) if p.place.is_active(pool)))
}

/// Whether there is such a work, which counts towards the pool's concurrency level.
fn is_holding<R: Reads>(machine: &R, pool: u8, v: usize) -> bool
    ensures { result ≡ (nat_lt v (length (R.loaded machine.now).works) && is_counted (R.loaded machine.now) (R.state machine.now) pool v) }
{
    is_work(machine, v) && is_counted(machine, pool, v)
}

/// Whether there is such a work, which runs on a worker of the pool, or on the queue's rescuer.
fn is_on_worker<R: Reads>(machine: &R, queue: u8, pool: u8, v: usize) -> bool
    ensures { result ≡ (nat_lt v (length (R.loaded machine.now).works) && is_on_worker (R.loaded machine.now) (R.state machine.now) queue pool v) }
{
    is_work(machine, v)
        && (is_on_pool_worker(machine, pool, v)
            || (machine.scenario().queue_of(v) == queue
                && matches!(machine.running_of(v), Some(r) if r.worker == RESCUER)))
}

/// Whether the work runs on a worker of the pool.
fn is_on_pool_worker<R: Reads>(machine: &R, pool: u8, v: usize) -> bool
    ensures { result ≡ runs (λ r. (r.pool == pool) && not (is_rescuer r.worker)) (running_at (R.state machine.now) v) }
{
    matches!(machine.running_of(v), Some(r) if r.pool == pool && r.worker != RESCUER)
}
