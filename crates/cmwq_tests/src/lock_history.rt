//! A lock over a history of turns.
ghost use Rattle.cmwq_tests.specs.declared.lock_history.TheConstants.{ROOM};
ghost use Rattle.std.proofs.Common.{lit≤};
ghost use Rattle.std.specs.Prelude.{◌≡◌, ◌≤◌, length, vec_capacity};
ghost use Rattle.cmwq_lock.specs.Tokens.{IsOpenerOf, opener_view};
ghost use Rattle.cmwq_lock.specs.Views.{next_of};

use cmwq_lock::{Call, Kept, Opener, TicketLock};
use std::alloc::Global;
use std::process::Abort;

/// The most turns that a history has room for.
const ROOM: usize = 800_000;

/// A turn as the history has it: its ticket, its caller, and how many turns this caller had begun before.
#[derive(Clone, Copy)]
pub(crate) struct Turn {
    pub(crate) ticket: u64,
    pub(crate) caller: u32,
    pub(crate) number: u32,
}

/// All turns, in the order in which they were taken.
#[derive(Drop)]
pub(crate) struct History {
    pub(crate) turns: Vec<Turn>,
}

impl Kept for History {
    type Origin = ();

    type Entry = Turn;

    ghost origin = { λ kept. tt };

    ghost log = { λ kept. kept.turns.items };

    ghost ticket = { λ turn. turn.ticket };

    ghost caller = { λ turn. turn.caller };

    ghost legal = { λ origin log. length log ≤ ROOM };

    ghost sound = { λ kept. (length kept.turns.items ≤ ROOM) × (ROOM ≤ vec_capacity kept.turns) };

    ghost empty_is_legal = { λ origin. lit≤ tt };

    ghost sound_is_legal = { λ kept sound. sound.0 };
}

/// Enters a caller's turn of this number, if there is room, and answers how many there are.
#[derive(Drop)]
pub(crate) struct Enter {
    pub(crate) number: u32,
}

impl Call<History> for Enter {
    type Out = usize;

    ghost tells = { λ origin call before after ticket caller out. out ≡ length after };

    fn apply(self, value: &mut History, ticket: u64, caller: u32) -> usize {
        if value.turns.len() < ROOM {
            value.turns.push_reserved(Turn {
                ticket,
                caller,
                number: self.number,
            });
        }
        value.turns.len()
    }
}

/// A lock over an empty history, and its opener.
pub(crate) fn opened(rt: &impl Abort, alloc: Global) -> (TicketLock<History>, Opener<History>)
    ensures opener { IsOpenerOf ⟦<History as Kept>⟧ result.0 result.1 }
    ensures first { next_of (opener_view result.1) ≡ 0 }
{
    let turns = Vec::with_capacity(alloc, ROOM).expect(rt, "memory is left");
    TicketLock::open(alloc, History { turns }).expect(rt, "memory is left")
}
