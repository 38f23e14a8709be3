//! What replies tell of instances that end and begin to run.
ghost use Rattle.cmwq_table.specs.Told.{cancelled_by, finished_by, has_taken_off, is_end, is_start, started_by, taken_off_in, tells_taken_off, work_to_take_off};
ghost use Rattle.cmwq_ledger.specs.Totals.{is_rescue, rescued_by};
ghost use Rattle.std.specs.Prelude.{◌≡◌};

use cmwq_types::{Event, Instr, Outcome, Reply};

/// The work whose running half ends.
pub(crate) fn finished_by(reply: Reply) -> Option<u16>
    ensures { result ≡ finished_by reply }
{
    match reply {
        Reply::Event { work, event } if is_end(event) => Some(work.0),
        _ => None,
    }
}

/// The work whose pending half begins to run.
pub(crate) fn started_by(reply: Reply) -> Option<u16>
    ensures { result ≡ started_by reply }
{
    match reply {
        Reply::Event { work, event } if is_start(event) => Some(work.0),
        _ => None,
    }
}

/// The work that starts on its queue's rescuer.
pub(crate) fn rescued_by(reply: Reply) -> Option<u16>
    ensures { result ≡ rescued_by reply }
{
    match reply {
        Reply::Event { work, event } if is_rescue(event) => Some(work.0),
        _ => None,
    }
}

/// The work whose pending half the instruction ends.
pub(crate) fn cancelled_by(instr: Instr, reply: Reply) -> Option<u16>
    ensures { result ≡ cancelled_by instr reply }
{
    match reply {
        Reply::Event { event, .. } => taken_off_in(event),
        _ if tells_taken_off(reply) => work_to_take_off(instr),
        _ => None,
    }
}

/// The work that an operation of a body took off.
fn taken_off_in(event: Event) -> Option<u16>
    ensures { result ≡ taken_off_in event }
{
    match event.object() {
        Some(object) if has_taken_off(object.outcome) => Some(object.work.0),
        _ => None,
    }
}

/// Returns whether the operation took its work item off.
fn has_taken_off(outcome: Outcome) -> bool
    ensures { result ≡ has_taken_off outcome }
{
    match outcome {
        Outcome::Modified { changed } => changed,
        Outcome::Cancelled { was } => was,
        _ => false,
    }
}

/// Whether the running half of the event's work ends.
fn is_end(event: Event) -> bool
    ensures { result ≡ is_end event }
{
    matches!(event, Event::Finishes | Event::FinishesAndStarts)
}

/// Whether an instance of the event's work begins to run.
fn is_start(event: Event) -> bool
    ensures { result ≡ is_start event }
{
    matches!(
        event,
        Event::Starts | Event::FinishesAndStarts | Event::StartsOnRescuer
    )
}

fn is_rescue(event: Event) -> bool
    ensures { result ≡ is_rescue event }
{
    matches!(event, Event::StartsOnRescuer)
}

/// Whether what was pending was taken off.
fn tells_taken_off(reply: Reply) -> bool
    ensures { result ≡ tells_taken_off reply }
{
    match reply {
        Reply::Cancelled | Reply::Changed => true,
        Reply::Sync { was, .. } => was,
        _ => false,
    }
}

/// The work that the instruction takes off where it is pending.
fn work_to_take_off(instr: Instr) -> Option<u16>
    ensures { result ≡ work_to_take_off instr }
{
    match instr {
        Instr::Mod(w, _, _) | Instr::Cancel(w) | Instr::CancelSync(w) | Instr::Disable(w) => {
            Some(w.0)
        }
        _ => None,
    }
}
