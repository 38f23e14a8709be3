//! The words that name the kinds of events.
ghost use Rattle.cmwq_debug.specs.EventWords.{first_kind, kind_of, kind_word};
ghost use Rattle.std.specs.Prelude.{◌≡◌};

use crate::command::EventKind;

const KINDS: [EventKind; 11] = [
    EventKind::Starts,
    EventKind::Burns,
    EventKind::Sleeps,
    EventKind::Wakes,
    EventKind::Finishes,
    EventKind::Defers,
    EventKind::Fires,
    EventKind::Queues,
    EventKind::Delays,
    EventKind::Mods,
    EventKind::Cancels,
];

impl EventKind {
    /// The kind that the word names, if it names one.
    pub fn read(word: &[u8]) -> Option<EventKind>
        ensures { result ≡ kind_of word.now }
    {
        first_kind(&KINDS, word)
    }

    /// The word that names it.
    pub fn as_str(self) -> &'static str
        ensures { result.now ≡ kind_word self }
    {
        match self {
            EventKind::Starts => "starts",
            EventKind::Burns => "burns",
            EventKind::Sleeps => "sleeps",
            EventKind::Wakes => "wakes",
            EventKind::Finishes => "finishes",
            EventKind::Defers => "defers",
            EventKind::Fires => "fires",
            EventKind::Queues => "queues",
            EventKind::Delays => "delays",
            EventKind::Mods => "mods",
            EventKind::Cancels => "cancels",
        }
    }
}

/// The first of these that is spelled so.
fn first_kind(kinds: &[EventKind], word: &[u8]) -> Option<EventKind>
    ensures { result ≡ first_kind kinds.now word.now }
{
    for kind in kinds {
        if word == kind.as_str().as_bytes() {
            return Some(*kind);
        }
    }
    None
}
