//! Whom a rescuer can take.
ghost use Rattle.cmwq_queued.specs.declared.pools.TheConstants.{MAX_POOLS};
ghost use Rattle.cmwq_core.specs.Rescuing.{is_untaken, rescue_state};
ghost use Rattle.cmwq_table.specs.Counts.{first_rescued};
ghost use Rattle.cmwq_types.specs.declared.limits.TheConstants.{MAX_WORKS};
ghost use Rattle.std.specs.Prelude.{◌≡◌, ◌<◌, IfSome, length};

use cmwq_queued::QueuedWorks;
use cmwq_running::RunningWorks;

/// The first work on the pool's worklist that doesn't run, and whose queue has a free rescuer.
pub(crate) fn first_rescued(queued: &QueuedWorks, running: &RunningWorks, pool: u8) -> Option<usize>
    requires pool { pool < MAX_POOLS }
    requires same { running.now.scenario ≡ queued.now.scenario }
    ensures first { result ≡ first_rescued queued.now.scenario (rescue_state queued.now running.now) pool }
    ensures in_range { IfSome result (λ w. w < length queued.now.scenario.works) }
    ensures few { IfSome result (λ w. w < MAX_WORKS) }
{
    queued.own_stamps(pool);
    let mut at = queued.first_listed(pool);
    while let Some(w) = at {
        if is_untaken(running, w) {
            return at;
        }
        at = queued.listed_behind(pool, w);
    }
    None
}

/// Whether the work doesn't run, and its queue has a free rescuer.
fn is_untaken(running: &RunningWorks, w: usize) -> bool
    requires work { w < length running.now.scenario.works }
    ensures { result ≡ is_untaken running.now.scenario running.now.running w }
{
    let queue = running.scenario().works[w].queue.0;
    running.has_free_rescuer(queue) && running.work(w).is_none()
}
