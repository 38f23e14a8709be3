//! What no clause says of the lock: that its calls succeed.
ghost use Rattle.std.specs.Prelude.{◌≡◌};
ghost use Rattle.cmwq_lock.specs.Tokens.{IsDrawnOf, IsOpenerOf, IsPassOf};

use crate::checking::same;
use crate::lock_history::{Enter, History, opened};
use cmwq_lock::{Drawn, Kept, NotYet, Opener, Pass, StillOut, TicketLock};
use std::alloc::Global;
use std::process::Abort;

/// Enters a turn; its number doesn't matter here.
const TURN: Enter = Enter { number: 0 };

/// A new lock, and its first two passes.
fn with_two_passes(
    rt: &impl Abort,
    alloc: Global,
) -> (
    TicketLock<History>,
    Opener<History>,
    Pass<History>,
    Pass<History>,
)
    ensures opener { IsOpenerOf ⟦<History as Kept>⟧ result.0 result.1 }
    ensures first { IsPassOf ⟦<History as Kept>⟧ result.0 result.2 }
    ensures second { IsPassOf ⟦<History as Kept>⟧ result.0 result.3 }
{
    let (lock, mut opener) = opened(rt, alloc);
    let first = lock.pass(&mut opener).expect(rt, "no pass is out");
    let second = lock.pass(&mut opener).expect(rt, "one pass is out");
    (lock, opener, first, second)
}

/// Draws a ticket, where no other thread draws.
fn drawn_by(rt: &impl Abort, lock: &TicketLock<History>, pass: Pass<History>) -> Drawn<History>
    requires { IsPassOf ⟦<History as Kept>⟧ lock.now pass }
    ensures { IsDrawnOf ⟦<History as Kept>⟧ lock.now result }
{
    match lock.draw(pass) {
        Ok(drawn) => drawn,
        Err(_) => panic!(rt; "one thread's draws all win"),
    }
}

/// Takes the turn of this ticket, after which the log has this length.
fn taken(
    rt: &impl Abort,
    lock: &TicketLock<History>,
    drawn: Drawn<History>,
    want: (u64, usize),
) -> Pass<History>
    requires { IsDrawnOf ⟦<History as Kept>⟧ lock.now drawn }
    ensures { IsPassOf ⟦<History as Kept>⟧ lock.now result }
{
    match lock.try_take(drawn, TURN) {
        Ok((pass, ticket, length)) => {
            same(rt, "a turn", (ticket, length), want);
            pass
        }
        Err(_not_yet) => panic!(rt; "its turn has come"),
    }
}

/// The turn of this ticket hasn't come: that of the other number has.
fn not_yet_taken(
    rt: &impl Abort,
    lock: &TicketLock<History>,
    drawn: Drawn<History>,
    want: (u64, u64),
) -> Drawn<History>
    requires { IsDrawnOf ⟦<History as Kept>⟧ lock.now drawn }
    ensures { IsDrawnOf ⟦<History as Kept>⟧ lock.now result }
{
    match lock.try_take(drawn, TURN) {
        Ok(_) => panic!(rt; "another ticket comes first"),
        Err(
            NotYet {
                drawn,
                ticket,
                served,
                call: _,
            },
        ) => {
            same(rt, "no turn yet", (ticket, served), want);
            drawn
        }
    }
}

/// The lock can't be closed while this many passes are out, and comes back.
fn not_closed(
    rt: &impl Abort,
    lock: TicketLock<History>,
    opener: Opener<History>,
    want: u32,
) -> (TicketLock<History>, Opener<History>)
    requires { IsOpenerOf ⟦<History as Kept>⟧ lock opener }
    ensures lock { result.0 ≡ lock }
    ensures opener { result.1 ≡ opener }
{
    match lock.close(opener) {
        Ok(_) => panic!(rt; "passes are out"),
        Err(StillOut { lock, opener, left }) => {
            same(rt, "passes out", left, want);
            (lock, opener)
        }
    }
}

/// Retires both passes, and closes the lock.
fn closed(
    rt: &impl Abort,
    lock: TicketLock<History>,
    opener: Opener<History>,
    first: Pass<History>,
    second: Pass<History>,
) -> History
    requires opener { IsOpenerOf ⟦<History as Kept>⟧ lock opener }
    requires first { IsPassOf ⟦<History as Kept>⟧ lock first }
    requires second { IsPassOf ⟦<History as Kept>⟧ lock second }
{
    let mut opener = opener;
    lock.retire(&mut opener, first);
    lock.retire(&mut opener, second);
    match lock.close(opener) {
        Ok(kept) => kept,
        Err(_) => panic!(rt; "no pass is out"),
    }
}

#[test]
fn two_callers_take_their_turns_in_the_order_of_their_tickets(rt: HostRuntime) {
    let (lock, opener, p0, p1) = with_two_passes(&rt, rt.alloc());
    let d0 = drawn_by(&rt, &lock, p0);
    let d1 = drawn_by(&rt, &lock, p1);
    let d1 = not_yet_taken(&rt, &lock, d1, (1, 0));
    let p0 = taken(&rt, &lock, d0, (0, 1));
    let p1 = taken(&rt, &lock, d1, (1, 2));
    let d1 = drawn_by(&rt, &lock, p1);
    let (p1, ticket, length) = lock.take(&rt, d1, TURN);
    same(&rt, "the third turn", (ticket, length), (2, 3));
    let (lock, opener) = not_closed(&rt, lock, opener, 2);
    let kept = closed(&rt, lock, opener, p0, p1);
    let callers = [0, 1, 1];
    same(&rt, "turns", kept.turns.len(), callers.len());
    for ((place, turn), caller) in kept.turns.iter().enumerate().zip(callers) {
        same(
            &rt,
            place,
            (turn.ticket, turn.caller),
            (place as u64, caller),
        );
    }
}
