//! Why a pending work isn't further, or why a work isn't pending.
ghost use Rattle.cmwq_reasons.specs.Reasons.{free_or_after, reason_by_move, reason_in_place, reason_of_none, reason_of_pending};
ghost use Rattle.cmwq_table.specs.State.{pending_at};
ghost use Rattle.std.specs.Prelude.{◌≡◌};

use crate::going_first::other_work;
use cmwq_reads::{Sought, first, limit, may_start, next_move};
use cmwq_reasons::{Instance, Reason, Turn};
use cmwq_table::Reads;
use cmwq_types::{Move, Place, WorkId};

/// Why what is queued of the work isn't further, or why nothing is queued of it. The reasons are this project's own.
pub fn pending_reason<R: Reads>(machine: &R, w: WorkId) -> Reason
    ensures { result ≡ reason_of_pending (R.loaded machine.now) (R.state machine.now) w.0 (pending_at (R.state machine.now) w.0) }
{
    match machine.pending_of(w.0 as usize) {
        Some(p) => reason_in_place(machine, w, p.place),
        None => reason_of_none(machine.depth_of(w.0 as usize)),
    }
}

/// Why the work, which pends there, isn't further.
fn reason_in_place<R: Reads>(machine: &R, w: WorkId, place: Place) -> Reason
    ensures { result ≡ reason_in_place (R.loaded machine.now) (R.state machine.now) w.0 place }
{
    match place {
        Place::Timer { due, cpu } if machine.time() < due => Reason::Timer { due, cpu },
        Place::Timer { .. } => match other_work(w.0 as usize, first(machine, Sought::Due)) {
            Some(v) => Reason::FiresAfter(WorkId(v as u16)),
            None => Reason::FiresNext,
        },
        Place::Inactive(pool) if limit(machine, machine.scenario().queue_of(w.0 as usize)) == 0 => {
            Reason::Frozen(pool)
        }
        Place::Inactive(pool) => Reason::Inactive(pool),
        Place::Listed(pool) if may_start(machine, pool) => {
            reason_by_move(w, pool, next_move(machine, pool))
        }
        Place::Listed(pool) => Reason::Held(pool),
        Place::Deferred(pool) => Reason::Deferred(pool),
    }
}

/// Why a work isn't pending.
fn reason_of_none(depth: u16) -> Reason
    ensures { result ≡ reason_of_none depth }
{
    if depth == 0 {
        Reason::NotPending
    } else {
        Reason::Disabled(depth)
    }
}

/// Why the work isn't further that is listed in the pool, which may start works and has this move next.
fn reason_by_move(w: WorkId, pool: u8, next: Option<Move>) -> Reason
    ensures { result ≡ reason_by_move w.0 pool next }
{
    match next {
        Some(Move::Advance(v) | Move::Wake(v)) => Reason::After {
            pool,
            first: Instance::Running(v),
        },
        Some(Move::Start(v)) => free_or_after(w, pool, Turn::Starts, v),
        Some(Move::Defer(v)) => free_or_after(w, pool, Turn::Defers, v),
        Some(Move::Rescue(v)) => free_or_after(w, pool, Turn::StartsOnRescuer, v),
        None => Reason::NoWorker(pool),
    }
}

/// That the work is free to go, if it is the one that is taken.
fn free_or_after(w: WorkId, pool: u8, turn: Turn, taken: WorkId) -> Reason
    ensures { result ≡ free_or_after w.0 pool turn taken }
{
    if taken.0 == w.0 {
        Reason::Free { pool, turn }
    } else {
        Reason::After {
            pool,
            first: Instance::Pending(taken),
        }
    }
}
