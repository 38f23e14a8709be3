//! Where the instance is that an event tells of.
ghost use Rattle.cmwq_trace.specs.Lines.{event_seat, is_of_pending, pending_seat, place_pool, reply_seat, running_seat};
ghost use Rattle.std.specs.Prelude.{◌≡◌};

use cmwq_slices::Execution;
use cmwq_table::{Pending, Reads, Running};
use cmwq_types::{Event, Place, Reply};

/// A pool and a worker of it, with the instance that is there.
#[derive(Clone, Copy, PartialEq, Eq)]
pub(crate) struct Seat {
    pub(crate) pool: u8,
    /// The number of its worker in that pool, or `RESCUER`, if it runs.
    pub(crate) worker: Option<u8>,
    /// The stamp of the instance's queueing.
    pub(crate) born: u64,
}

/// Where the instance is that the reply tells of, in the machine's state behind it, or where it was that has ended by it.
pub(crate) fn reply_seat<R: Reads>(
    machine: &R,
    reply: Reply,
    ended: Option<Execution>,
) -> Option<Seat>
    ensures { result ≡ reply_seat (R.state machine.now) reply ended }
{
    let Reply::Event { work, event } = reply else {
        return None;
    };
    let w = work.0 as usize;
    if is_of_pending(event) {
        return pending_seat(machine.pending_of(w));
    }
    running_seat(machine.running_of(w), ended)
}

fn running_seat(running: Option<Running>, ended: Option<Execution>) -> Option<Seat>
    ensures { result ≡ running_seat running ended }
{
    if let Some(r) = running {
        return Some(Seat {
            pool: r.pool,
            worker: Some(r.worker),
            born: r.born,
        });
    }
    ended.map(|execution| Seat {
        pool: execution.pool,
        worker: Some(execution.worker),
        born: execution.born,
    })
}

fn pending_seat(pending: Option<Pending>) -> Option<Seat>
    ensures { result ≡ pending_seat pending }
{
    pending.map(|p| Seat {
        pool: place_pool(p.place),
        worker: None,
        born: p.born,
    })
}

fn place_pool(place: Place) -> u8
    ensures { result ≡ place_pool place }
{
    match place {
        Place::Inactive(pool) | Place::Listed(pool) | Place::Deferred(pool) => pool,
        Place::Timer { .. } => 0,
    }
}

/// Whether the event is one of the pending instance.
fn is_of_pending(event: Event) -> bool
    ensures { result ≡ is_of_pending event }
{
    matches!(event, Event::Defers | Event::Fires)
}
