//! An event as its parts: its verb, its ticks, and the work item that it names with the outcome.
ghost use Rattle.cmwq_types.specs.EventParts.{object_of, ticks_of, verb_of, verb_text};
ghost use Rattle.std.specs.Prelude.{◌≡◌};

use crate::instr::WorkId;
use crate::reply::Event;

/// What the work item of an event does.
#[derive(Clone, Copy, PartialEq, Eq)]
pub enum Verb {
    Starts,
    Burns,
    Sleeps,
    Wakes,
    Finishes,
    FinishesAndStarts,
    Defers,
    Fires,
    Queues,
    StartsOnRescuer,
    Delays,
    Mods,
    Cancels,
}

/// The outcome of an operation on another work item.
#[derive(Clone, Copy, PartialEq, Eq)]
pub enum Outcome {
    /// It was queued, unless it was pending `already`.
    Queued { already: bool },
    /// It was queued anew; `changed` if it was pending.
    Modified { changed: bool },
    /// It was taken off if it `was` pending.
    Cancelled { was: bool },
    /// It is disabled, so it was not queued.
    Disabled,
}

/// The work item that an operation names, and the outcome.
#[derive(Clone, Copy, PartialEq, Eq)]
pub struct Object {
    pub work: WorkId,
    pub outcome: Outcome,
}

impl Verb {
    /// Returns its words in a line of `run`.
    pub fn as_str(self) -> &'static str
        ensures { result.now ≡ verb_text self }
    {
        match self {
            Verb::Starts => "starts",
            Verb::Burns => "burns",
            Verb::Sleeps => "sleeps",
            Verb::Wakes => "wakes",
            Verb::Finishes => "finishes",
            Verb::FinishesAndStarts => "finishes and starts",
            Verb::Defers => "defers",
            Verb::Fires => "fires",
            Verb::Queues => "queues",
            Verb::StartsOnRescuer => "starts on rescuer",
            Verb::Delays => "delays",
            Verb::Mods => "mods",
            Verb::Cancels => "cancels",
        }
    }
}

impl Event {
    /// Returns what its work item does.
    pub fn verb(self) -> Verb
        ensures { result ≡ verb_of self }
    {
        match self {
            Event::Starts => Verb::Starts,
            Event::Burns(_) => Verb::Burns,
            Event::Sleeps(_) => Verb::Sleeps,
            Event::Wakes => Verb::Wakes,
            Event::Finishes => Verb::Finishes,
            Event::FinishesAndStarts => Verb::FinishesAndStarts,
            Event::Defers => Verb::Defers,
            Event::Fires => Verb::Fires,
            Event::Queues { .. } | Event::QueuesDisabled { .. } => Verb::Queues,
            Event::StartsOnRescuer => Verb::StartsOnRescuer,
            Event::Delays { .. } | Event::DelaysDisabled { .. } => Verb::Delays,
            Event::Mods { .. } | Event::ModsDisabled { .. } => Verb::Mods,
            Event::Cancels { .. } => Verb::Cancels,
        }
    }

    /// Returns how many ticks it names, if it names some.
    pub fn ticks(self) -> Option<u32>
        ensures { result ≡ ticks_of self }
    {
        match self {
            Event::Burns(ticks)
            | Event::Sleeps(ticks)
            | Event::Delays { ticks, .. }
            | Event::DelaysDisabled { ticks, .. }
            | Event::Mods { ticks, .. }
            | Event::ModsDisabled { ticks, .. } => Some(ticks),
            _ => None,
        }
    }

    /// Returns the other work item that it names, and the outcome, if it names one.
    pub fn object(self) -> Option<Object>
        ensures { result ≡ object_of self }
    {
        match self {
            Event::Queues { other, already } | Event::Delays { other, already, .. } => {
                Some(named(other, Outcome::Queued { already }))
            }
            Event::Mods { other, changed, .. } => {
                Some(named(other, Outcome::Modified { changed }))
            }
            Event::Cancels { other, was } => Some(named(other, Outcome::Cancelled { was })),
            Event::QueuesDisabled { other }
            | Event::DelaysDisabled { other, .. }
            | Event::ModsDisabled { other, .. } => Some(named(other, Outcome::Disabled)),
            _ => None,
        }
    }
}

/// Returns this work item with this outcome.
fn named(work: WorkId, outcome: Outcome) -> Object
    ensures work { result.work ≡ work }
    ensures outcome { result.outcome ≡ outcome }
{
    Object { work, outcome }
}
