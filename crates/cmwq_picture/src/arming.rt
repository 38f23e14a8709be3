//! Who sets timers: which work's body did, for which instance, and when.
ghost use Rattle.cmwq_picture.specs.Arming.{armed_work, armer, arming_for, is_for, marked, new_arming};
ghost use Rattle.cmwq_table.specs.Told.{has_queued};
ghost use Rattle.std.specs.Prelude.{◌≡◌};

use crate::cell::{Cell, Sign};
use cmwq_table::{Pending, Reads};
use cmwq_types::{Event, Outcome, Reply, WorkId};

/// A work's body set a timer.
#[derive(Clone, Copy)]
pub(crate) struct Arming {
    /// When, in ticks.
    pub(crate) time: u64,
    /// The work that waits for it.
    pub(crate) work: WorkId,
    /// The work whose body set it.
    pub(crate) by: WorkId,
    /// The birth of the instance that waits for it.
    pub(crate) born: u64,
}

/// The timer that a body set at the time, by the answer to the instruction that the machine has carried out.
pub(crate) fn new_arming<R: Reads>(time: u64, machine: &R, reply: Reply) -> Option<Arming>
    ensures { result ≡ new_arming time (R.state machine.now) reply }
{
    let Reply::Event { work: by, event } = reply else {
        return None;
    };
    match armed_work(event) {
        Some(work) => arming_for(time, by, work, machine.pending_of(work.0 as usize)),
        None => None,
    }
}

/// The work whose timer the event of a body sets: after no ticks it is placed at once.
fn armed_work(event: Event) -> Option<WorkId>
    ensures { result ≡ armed_work event }
{
    match (event.ticks(), event.object()) {
        (Some(ticks), Some(object)) if ticks > 0 && has_queued(object.outcome) => {
            Some(object.work)
        }
        _ => None,
    }
}

/// Returns whether the operation queued its work item.
fn has_queued(outcome: Outcome) -> bool
    ensures { result ≡ has_queued outcome }
{
    match outcome {
        Outcome::Queued { already } => !already,
        Outcome::Modified { .. } => true,
        _ => false,
    }
}

/// The body set the timer for the instance that is pending then.
fn arming_for(time: u64, by: WorkId, work: WorkId, pending: Option<Pending>) -> Option<Arming>
    ensures { result ≡ arming_for time by work pending }
{
    match pending {
        Some(p) => Some(Arming {
            time,
            work,
            by,
            born: p.born,
        }),
        None => None,
    }
}

/// The work whose body set a timer for the pending instance of the work, if one of these did; the last one.
pub(crate) fn armer(armed: &[Arming], w: usize, pending: Option<Pending>) -> Option<WorkId>
    ensures { result ≡ armer armed.now w pending }
{
    let mut by = None;
    for arming in armed {
        if is_for(w, pending, *arming) {
            by = Some(arming.by);
        }
    }
    by
}

/// Whether it is for this instance of the work.
fn is_for(w: usize, pending: Option<Pending>, arming: Arming) -> bool
    ensures { result ≡ is_for w pending arming }
{
    match pending {
        Some(p) => arming.work.0 as usize == w && arming.born == p.born,
        None => false,
    }
}

/// The cell, where the mark of who set the timer stands in the stead of the sign of a timer.
pub(crate) fn marked(by: Option<WorkId>, cell: Cell) -> Cell
    ensures { result ≡ marked by cell }
{
    match (by, cell) {
        (Some(by), Cell::Does(Sign::Timed)) => Cell::Armed(by),
        _ => cell,
    }
}
