//! Who waits for others.
ghost use Rattle.cmwq_blame.specs.Blame.{is_wait};
ghost use Rattle.cmwq_picture.specs.Picture.{place_sign, run_sign};
ghost use Rattle.cmwq_table.specs.Counts.{burns};
ghost use Rattle.std.specs.Prelude.{◌≡◌, Some};

use cmwq_reads::{Sought, first};
use cmwq_table::{Reads, Running};
use cmwq_types::Place;

/// Whether a work that is pending there waits for others, rather than for its timer.
pub(crate) fn is_wait_in(place: Place) -> bool
    ensures { result ≡ is_wait (place_sign place) }
{
    !matches!(place, Place::Timer { .. })
}

/// Whether the work, which runs so, waits for the CPU.
pub(crate) fn is_ready<R: Reads>(machine: &R, w: usize, r: Running) -> bool
    ensures { result ≡ is_wait (run_sign (R.loaded machine.now) (R.state machine.now) w r) }
{
    r.mode.is_runnable() && !burns(machine, w, r)
}

/// Whether the work, which runs so, burns in a tick: in an unbound pool where it is runnable, else as its pool's first runnable work, in
/// a normal pool only where its CPU's high pool has none.
fn burns<R: Reads>(machine: &R, w: usize, r: Running) -> bool
    ensures { result ≡ burns (R.loaded machine.now) (R.state machine.now) w (Some r) }
{
    if machine.scenario().is_unbound(r.pool) {
        return r.mode.is_runnable();
    }
    first(machine, Sought::Runnable { pool: r.pool }) == Some(w)
        && (r.pool % 2 == 1 || first(machine, Sought::Runnable { pool: r.pool + 1 }).is_none())
}
