//! Who goes first: the instance that a pool moves next, and the works that have the CPU.
ghost use Rattle.cmwq_reasons.specs.Reasons.{is_same, moved_instance, mover, other_instance, other_work, work_above, work_before};
ghost use Rattle.cmwq_types.specs.declared.limits.TheConstants.{MAX_WORKS};
ghost use Rattle.std.specs.Prelude.{◌≡◌, ◌<◌, IfSome};

use cmwq_reads::{Sought, first, next_move};
use cmwq_reasons::Instance;
use cmwq_table::Reads;
use cmwq_types::Move;

/// The instance that the pool's next move moves, if that is another one than this.
pub(crate) fn other_mover<R: Reads>(machine: &R, pool: u8, instance: Instance) -> Option<Instance>
    ensures { result ≡ other_instance instance (mover (R.loaded machine.now) (R.state machine.now) pool) }
{
    match next_move(machine, pool).map(moved_instance) {
        Some(other) if !is_same(instance, other) => Some(other),
        _ => None,
    }
}

/// The work that goes before this one on the CPU of a bound pool: the pool's first runnable one, if it is another one.
pub(crate) fn work_before<R: Reads>(machine: &R, w: usize, pool: u8) -> Option<usize>
    ensures before { result ≡ work_before (R.loaded machine.now) (R.state machine.now) w pool }
    ensures in_range { IfSome result (λ v. v < MAX_WORKS) }
{
    if machine.scenario().is_unbound(pool) {
        return None;
    }
    other_work(w, first(machine, Sought::Runnable { pool }))
}

/// The work that keeps the normal pool of a CPU from burning: the first runnable one of the CPU's high pool.
pub(crate) fn work_above<R: Reads>(machine: &R, pool: u8) -> Option<usize>
    ensures above { result ≡ work_above (R.loaded machine.now) (R.state machine.now) pool }
    ensures in_range { IfSome result (λ v. v < MAX_WORKS) }
{
    if machine.scenario().is_unbound(pool) || pool % 2 == 1 {
        return None;
    }
    first(machine, Sought::Runnable { pool: pool + 1 })
}

/// The work, if it is another one than this.
pub(crate) fn other_work(w: usize, found: Option<usize>) -> Option<usize>
    requires { IfSome found (λ v. v < MAX_WORKS) }
    ensures other { result ≡ other_work w found }
    ensures in_range { IfSome result (λ v. v < MAX_WORKS) }
{
    match found {
        Some(v) if v != w => Some(v),
        _ => None,
    }
}

/// Whether they are one instance.
pub fn is_same(one: Instance, other: Instance) -> bool
    ensures { result ≡ is_same one other }
{
    match (one, other) {
        (Instance::Pending(v), Instance::Pending(w)) => v.0 == w.0,
        (Instance::Running(v), Instance::Running(w)) => v.0 == w.0,
        _ => false,
    }
}

fn moved_instance(next: Move) -> Instance
    ensures { result ≡ moved_instance next }
{
    match next {
        Move::Advance(w) | Move::Wake(w) => Instance::Running(w),
        Move::Start(w) | Move::Defer(w) | Move::Rescue(w) => Instance::Pending(w),
    }
}
