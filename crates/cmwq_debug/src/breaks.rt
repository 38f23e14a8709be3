//! Breaks: which instructions they match, and which of several is said.
ghost use Rattle.cmwq_debug.specs.Breaks.{free, is_activation, is_kind, is_listed_from, matches, matches_seen, said_by, seen, tells, watched};
ghost use Rattle.std.specs.Prelude.{◌≡◌, ◌<◌, IfSome, length, map};

use crate::command::EventKind;
use cmwq_table::{Pending, Reads};
use cmwq_types::{Event, Place, Reply, WorkId};

/// The most breaks at once.
pub const MAX_BREAKS: usize = 16;

/// What a run stops at.
#[derive(Clone, Copy)]
pub(crate) enum Break {
    /// An event of the kind, of the work.
    OnWork(WorkId, EventKind),
    /// The instruction that makes the time this tick.
    OnTime(u32),
    /// A refused instruction.
    OnRefusal,
    /// An instruction that activates the work.
    OnActivation(WorkId),
}

/// What a break sees of a machine.
#[derive(Clone, Copy)]
pub(crate) struct Sight {
    /// The time.
    pub time: u64,
    /// The pending instance of the work whose activation it waits for.
    pub pending: Option<Pending>,
}

impl Break {
    /// Whether the break matches an instruction, by what it sees before and after it and the reply to it.
    fn matches(self, before: Sight, after: Sight, reply: Reply) -> bool
        ensures { result ≡ matches self before after reply }
    {
        match self {
            Break::OnWork(work, kind) => tells(work, kind, reply),
            Break::OnTime(time) => after.time == u64::from(time) && before.time != u64::from(time),
            Break::OnRefusal => matches!(reply, Reply::Refused(_)),
            Break::OnActivation(_) => is_activation(before.pending, after.pending),
        }
    }
}

/// Whether the reply is an event of the kind, of the work.
fn tells(work: WorkId, kind: EventKind, reply: Reply) -> bool
    ensures { result ≡ tells work.0 kind reply }
{
    match reply {
        Reply::Event { work: moved, event } => moved.0 == work.0 && is_kind(kind, event),
        _ => false,
    }
}

fn is_kind(kind: EventKind, event: Event) -> bool
    ensures { result ≡ is_kind kind event }
{
    match kind {
        EventKind::Starts => {
            matches!(
                event,
                Event::Starts | Event::StartsOnRescuer | Event::FinishesAndStarts
            )
        }
        EventKind::Burns => matches!(event, Event::Burns(_)),
        EventKind::Sleeps => matches!(event, Event::Sleeps(_)),
        EventKind::Wakes => matches!(event, Event::Wakes),
        EventKind::Finishes => matches!(event, Event::Finishes | Event::FinishesAndStarts),
        EventKind::Defers => matches!(event, Event::Defers),
        EventKind::Fires => matches!(event, Event::Fires),
        EventKind::Queues => {
            matches!(event, Event::Queues { .. } | Event::QueuesDisabled { .. })
        }
        EventKind::Delays => {
            matches!(event, Event::Delays { .. } | Event::DelaysDisabled { .. })
        }
        EventKind::Mods => { matches!(event, Event::Mods { .. } | Event::ModsDisabled { .. }) }
        EventKind::Cancels => matches!(event, Event::Cancels { .. }),
    }
}

/// Whether the pending instance that a work had is activated.
fn is_activation(before: Option<Pending>, after: Option<Pending>) -> bool
    ensures { result ≡ is_activation before after }
{
    match (before, after) {
        (Some(before), Some(after)) => {
            is_listed_from(before.place, after.place) && after.born == before.born
        }
        _ => false,
    }
}

fn is_listed_from(before: Place, after: Place) -> bool
    ensures { result ≡ is_listed_from before after }
{
    matches!((before, after), (Place::Inactive(_), Place::Listed(_)))
}

/// What each of the breaks sees of the machine.
pub(crate) fn sights<M: Reads>(
    breaks: &[Option<Break>; MAX_BREAKS],
    machine: &M,
) -> [Sight; MAX_BREAKS]
    ensures { result ≡ map (seen (M.state machine.now)) breaks.now }
{
    let mut sights = [seen(None, machine); MAX_BREAKS];
    for place in 0..MAX_BREAKS {
        sights[place] = seen(breaks[place], machine);
    }
    sights
}

/// What a break sees of the machine.
fn seen<M: Reads>(there: Option<Break>, machine: &M) -> Sight
    ensures { result ≡ seen (M.state machine.now) there }
{
    Sight {
        time: machine.time(),
        pending: watched(there, machine),
    }
}

/// The pending instance that a break watches.
fn watched<M: Reads>(there: Option<Break>, machine: &M) -> Option<Pending>
    ensures { result ≡ watched (M.state machine.now) there }
{
    match there {
        Some(Break::OnActivation(work)) => machine.pending_of(work.0 as usize),
        _ => None,
    }
}

/// The number of the lowest break that matches the instruction that led to the machine's state, by what each saw before it and
/// the reply to it.
pub(crate) fn said_by<M: Reads>(
    breaks: &[Option<Break>; MAX_BREAKS],
    sights: &[Sight; MAX_BREAKS],
    machine: &M,
    reply: Reply,
) -> Option<usize>
    ensures lowest { result ≡ said_by breaks.now sights.now (M.state machine.now) reply }
    ensures in_range { IfSome result (λ i. i < length breaks.now) }
{
    for i in 0..MAX_BREAKS {
        if matches_seen(breaks[i], sights[i], machine, reply) {
            return Some(i);
        }
    }
    None
}

fn matches_seen<M: Reads>(there: Option<Break>, before: Sight, machine: &M, reply: Reply) -> bool
    ensures { result ≡ matches_seen before (M.state machine.now) reply there }
{
    match there {
        Some(on) => on.matches(before, seen(there, machine), reply),
        None => false,
    }
}

/// The lowest free place.
pub(crate) fn free(breaks: &[Option<Break>]) -> Option<usize>
    ensures lowest { result ≡ free breaks.now }
    ensures in_range { IfSome result (λ i. i < length breaks.now) }
{
    for i in 0..breaks.len() {
        if breaks[i].is_none() {
            return Some(i);
        }
    }
    None
}
