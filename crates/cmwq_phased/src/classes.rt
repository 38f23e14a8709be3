//! The classes in which running works are counted.
ghost use Rattle.cmwq_phased.specs.Indexes.{awake_class, busy_class, rescued_class, running_class};
ghost use Rattle.cmwq_phased.specs.declared.pools.TheConstants.{MAX_POOLS};
ghost use Rattle.cmwq_phased.specs.Runs.{is_awake};
ghost use Rattle.std.specs.Prelude.{◌≡◌, ◌+◌, ◌*◌};

use crate::pools::MAX_POOLS;
use crate::{Phase, Run};
use cmwq_types::RESCUER;

/// The class of a queue's works that run in a pool.
pub(crate) fn class_in(queue: u8, pool: u8) -> usize
    ensures { result ≡ MAX_POOLS * queue + pool }
{
    usize::from(MAX_POOLS) * usize::from(queue) + usize::from(pool)
}

/// The class in which a work of the queue that runs so is counted as running in its pool, if in any.
pub(crate) fn running_class(queue: u8, run: Option<Run>) -> Option<usize>
    ensures { result ≡ running_class queue run }
{
    match run {
        Some(run) if run.pool < MAX_POOLS => Some(class_in(queue, run.pool)),
        _ => None,
    }
}

/// The class in which it is counted as awake: that of its pool.
pub(crate) fn awake_class(intensive: bool, run: Option<Run>) -> Option<usize>
    ensures { result ≡ awake_class intensive run }
{
    match run {
        Some(run) if is_awake(run.phase) && !intensive => Some(usize::from(run.pool)),
        _ => None,
    }
}

/// Whether a work in this phase is awake: it doesn't sleep.
#[inline(always)]
pub(crate) fn is_awake(phase: Phase) -> bool
    ensures { result ≡ is_awake phase }
{
    match phase {
        Phase::Ready | Phase::Held(_) | Phase::Burning(_) => true,
        Phase::Asleep(_) | Phase::Slept(_) => false,
    }
}

/// The class in which it is counted as running on its queue's rescuer: that of the queue.
pub(crate) fn rescued_class(queue: u8, run: Option<Run>) -> Option<usize>
    ensures { result ≡ rescued_class queue run }
{
    match run {
        Some(run) if run.worker == RESCUER => Some(usize::from(queue)),
        _ => None,
    }
}

/// The class in which it is counted as running where its queue is freezable: the one that there is.
pub(crate) fn busy_class(freezable: bool, run: Option<Run>) -> Option<usize>
    ensures { result ≡ busy_class freezable run }
{
    if freezable && run.is_some() {
        Some(0)
    } else {
        None
    }
}
