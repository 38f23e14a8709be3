//! What the place of a pending work means for each index: its list, its timer, and the classes in which it is counted.
ghost use Rattle.cmwq_queued.specs.Indexes.{busy_if, in_pool, inactive_list, timer_of};
ghost use Rattle.cmwq_queued.specs.QueuedContents.{is_timer};
ghost use Rattle.cmwq_queued.specs.declared.pools.TheConstants.{MAX_POOLS};
ghost use Rattle.cmwq_types.specs.Scenario.{flags_at, queue_of};
ghost use Rattle.cmwq_types.specs.declared.limits.TheConstants.{MAX_WORKS};
ghost use Rattle.std.specs.Prelude.{◌≡◌, ◌<◌, ◌+◌, ◌*◌, IfSome, Some, length};

use crate::pools::MAX_POOLS;
use cmwq_table::Pending;
use cmwq_timers::Timer;
use cmwq_types::{Place, Scenario, WorkId};

/// The number of the class of a queue's works in a pool.
#[inline(always)]
pub(crate) fn class_in(queue: u8, pool: u8) -> usize
    ensures { result ≡ MAX_POOLS * queue + pool }
{
    usize::from(MAX_POOLS) * usize::from(queue) + usize::from(pool)
}

/// The number of the list of a queue's inactive works in a pool: these stand behind the worklists.
#[inline(always)]
pub(crate) fn inactive_list(queue: u8, pool: u8) -> usize
    ensures { result ≡ inactive_list queue pool }
{
    usize::from(MAX_POOLS) + class_in(queue, pool)
}

/// This number of a list or class, where the pool is one that a machine may have.
#[inline(always)]
pub(crate) fn in_pool(pool: u8, number: usize) -> Option<usize>
    ensures { result ≡ in_pool pool number }
{
    if pool < MAX_POOLS { Some(number) } else { None }
}

/// The class in which active works are counted where their queue is freezable: the one that there is.
#[inline(always)]
pub(crate) fn busy_if(freezable: bool) -> Option<usize>
    ensures { result ≡ busy_if freezable }
{
    if freezable { Some(0) } else { None }
}

/// Whether the place is a timer.
#[inline(always)]
pub(crate) fn is_timer(place: Place) -> bool
    ensures { result ≡ is_timer place }
{
    matches!(place, Place::Timer { .. })
}

/// The timer of a work that is pending so, if it has one.
#[inline(always)]
pub(crate) fn timer_of(w: usize, p: Pending) -> Option<Timer>
    requires few { w < MAX_WORKS }
    ensures timer { result ≡ timer_of w (Some p) }
    ensures own { IfSome result (λ timer. timer.work.0 ≡ w) }
{
    match p.place {
        Place::Timer { due, cpu } => Some(Timer {
            due,
            stamp: p.stamp,
            work: WorkId(w as u16),
            cpu,
        }),
        _ => None,
    }
}

/// The number of the queue of a work that there is.
#[inline(always)]
pub(crate) fn queue_of(scenario: &Scenario, w: usize) -> u8
    requires work { w < length scenario.now.works }
    ensures { result ≡ queue_of scenario.now w }
{
    scenario.works[w].queue.0
}

/// Whether a queue that there is is freezable.
#[inline(always)]
pub(crate) fn is_freezable(scenario: &Scenario, queue: u8) -> bool
    requires queue { queue < length scenario.now.queues }
    ensures { result ≡ (flags_at scenario.now queue).freezable }
{
    scenario.queues[usize::from(queue)].flags.freezable
}
