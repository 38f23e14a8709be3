//! The next move of a worker pool.
ghost use Rattle.cmwq_table.specs.Counts.{first_listed, first_runnable, free_worker, if_ready, ready_head};
ghost use Rattle.cmwq_table.specs.Moves.{next_move, start_first, start_move};
ghost use Rattle.cmwq_types.specs.declared.limits.TheConstants.{MAX_WORKS};
ghost use Rattle.std.specs.Prelude.{◌≡◌, ◌<◌, IfSome, length, nat_lt, not};

use crate::sought::{Sought, first};
use crate::tally::may_start;
use crate::workers::free_worker;
use cmwq_table::Reads;
use cmwq_types::{Move, WorkId};

/// Whether the scenario's steps are spent, so that nothing moves any more.
pub fn is_spent<R: Reads>(machine: &R) -> bool
    ensures { result ≡ not (nat_lt (R.state machine.now).spent (R.loaded machine.now).steps) }
{
    machine.spent() >= machine.scenario().steps
}

/// The next move of the pool: advance, else wake, else start.
pub fn next_move<R: Reads>(machine: &R, pool: u8) -> Option<Move>
    ensures { result ≡ next_move (R.loaded machine.now) (R.state machine.now) pool }
{
    if let Some(w) = ready_head(machine, pool) {
        return Some(Move::Advance(WorkId(w as u16)));
    }
    if let Some(w) = first(machine, Sought::Slept { pool }) {
        return Some(Move::Wake(WorkId(w as u16)));
    }
    start_move(machine, pool)
}

/// The move that takes a listed work, if the pool may start one: the first listed work, else the first
/// that a rescuer can take.
fn start_move<R: Reads>(machine: &R, pool: u8) -> Option<Move>
    ensures { result ≡ start_move (R.loaded machine.now) (R.state machine.now) pool }
{
    if !may_start(machine, pool) {
        return None;
    }
    let started = start_first(machine, pool);
    if started.is_some() {
        return started;
    }
    let w = first(machine, Sought::Rescued { pool })?;
    Some(Move::Rescue(WorkId(w as u16)))
}

/// The move that takes the first listed work. A work that runs is deferred; any other wants a worker.
fn start_first<R: Reads>(machine: &R, pool: u8) -> Option<Move>
    ensures { result ≡ start_first (R.state machine.now) (first_listed (R.loaded machine.now) (R.state machine.now) pool) (free_worker (R.loaded machine.now) (R.state machine.now) pool) }
{
    let w = first(machine, Sought::Listed { pool })?;
    if machine.running_of(w).is_some() {
        return Some(Move::Defer(WorkId(w as u16)));
    }
    free_worker(machine, pool)?;
    Some(Move::Start(WorkId(w as u16)))
}

/// The first of the pool's heads with no tick left to burn.
pub fn ready_head<R: Reads>(machine: &R, pool: u8) -> Option<usize>
    ensures first { result ≡ ready_head (R.loaded machine.now) (R.state machine.now) pool }
    ensures in_range { IfSome result (λ w. w < length (R.loaded machine.now).works) }
    ensures few { IfSome result (λ w. w < MAX_WORKS) }
{
    if machine.scenario().is_unbound(pool) {
        first(machine, Sought::Ready { pool })
    } else {
        if_ready(machine, first(machine, Sought::Runnable { pool }))
    }
}

/// The work, if it has nothing left to burn.
fn if_ready<R: Reads>(machine: &R, work: Option<usize>) -> Option<usize>
    requires in_range { IfSome work (λ w. w < length (R.loaded machine.now).works) }
    requires few { IfSome work (λ w. w < MAX_WORKS) }
    ensures first { result ≡ if_ready (R.state machine.now) work }
    ensures in_range { IfSome result (λ w. w < length (R.loaded machine.now).works) }
    ensures few { IfSome result (λ w. w < MAX_WORKS) }
{
    match work {
        Some(w) if matches!(machine.running_of(w), Some(r) if r.left == 0) => Some(w),
        _ => None,
    }
}
