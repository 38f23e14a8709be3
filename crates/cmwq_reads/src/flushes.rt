//! Whether what a flush waits for is still there.
ghost use Rattle.cmwq_table.specs.Counts.{has_instance, is_done};
ghost use Rattle.cmwq_table.specs.Table.{target_at};
ghost use Rattle.std.specs.Prelude.{◌≡◌, ◌==◌, nat_lt};

use crate::tally::{Tally, count};
use cmwq_table::{FlushTarget, Reads};

/// What the flush of this number waits for: nothing where no such flush was given.
pub fn flush_target<R: Reads>(machine: &R, flush: usize) -> FlushTarget
    ensures { result ≡ target_at (R.state machine.now) flush }
{
    machine.flush_of(flush).unwrap_or(FlushTarget::Nothing)
}

/// Whether a flush on the target is done.
pub fn is_done<R: Reads>(machine: &R, target: FlushTarget) -> bool
    ensures { result ≡ is_done (R.loaded machine.now) (R.state machine.now) target }
{
    match target {
        FlushTarget::Instance { work, born } => {
            !has_instance_born(machine, work.0 as usize, born)
        }
        FlushTarget::Queue { queue, bound } => {
            let queue = queue.0;
            count(machine, Tally::QueuedBefore { queue, bound }) == 0
        }
        FlushTarget::Nothing => true,
    }
}

/// Whether the work has a placed or a running instance of this birth.
fn has_instance_born<R: Reads>(machine: &R, w: usize, born: u64) -> bool
    ensures { result ≡ has_instance (R.state machine.now) w (λ b. b == born) }
{
    matches!(machine.pending_of(w), Some(p) if p.place.is_placed() && p.born == born)
        || matches!(machine.running_of(w), Some(r) if r.born == born)
}

/// Whether the work has a placed or a running instance that was queued before.
pub(crate) fn has_instance_before<R: Reads>(machine: &R, w: usize, bound: u64) -> bool
    ensures { result ≡ has_instance (R.state machine.now) w (λ born. nat_lt born bound) }
{
    matches!(machine.pending_of(w), Some(p) if p.place.is_placed() && p.born < bound)
        || matches!(machine.running_of(w), Some(r) if r.born < bound)
}
