//! Shared engines: what no clause says of them, that their calls succeed, for one thread and for two.
ghost use Rattle.std.specs.Prelude.{◌≡◌, ◌≤◌};
ghost use Rattle.cmwq_types.specs.declared.limits.TheConstants.{MAX_HISTORY};
ghost use Rattle.cmwq_lock.specs.Tokens.{opener_view};
ghost use Rattle.cmwq_lock.specs.Views.{next_of};
ghost use Rattle.cmwq_engine.specs.Shared.{IsDrawnOf, IsOpenerOf, IsPassOf};

use crate::at_once::{Done, Part, at_once, is_pending};
use crate::checking::same;
use crate::examples::{TWO_WORKS, scenario_of};
use cmwq_engine::{Engine, Full, Receipt, Shared, StillOut};
use cmwq_lock::{Drawn, NotYet, Opener, Pass};
use cmwq_table::Machine;
use cmwq_types::{Instr, Place, Reply, WorkId, WorkState};
use std::alloc::Global;
use std::process::Abort;
use std::sync::Wait;
use std::thread::Threads;
use std::time::Clock;

/// A work that burns once, on a queue of `max_active` 1.
pub(crate) const ONE_WORK: &[u8] =
    b"cpus 1\nworkers 4\nsteps 1000\nflushes 2\nqueue q max 1\nwork a q\n\
    body a\nburn 1\nfinish\nactor t\n";

const A: WorkId = WorkId(0);

const B: WorkId = WorkId(1);

const QUEUE_A: Instr = Instr::Queue(A, 0);

/// A work that waits on pool 0's worklist, and doesn't run.
const LISTED: Reply = Reply::Found(WorkState {
    place: Some(Place::Listed(0)),
    run: None,
});

fn receipt(ticket: u64, place: u32, reply: Reply) -> Receipt {
    Receipt {
        ticket,
        place,
        reply,
    }
}

/// A shared engine with room for so many entries, and its opener.
pub(crate) fn opened<M: Machine>(
    rt: &impl Abort,
    alloc: Global,
    text: &[u8],
    capacity: u32,
) -> (Shared<M>, Opener<Engine<M>>)
    requires { capacity ≤ MAX_HISTORY }
    ensures opener { IsOpenerOf result.0 result.1 }
    ensures first { next_of (opener_view result.1) ≡ 0 }
{
    let scenario = scenario_of(rt, alloc, text);
    Shared::open(alloc, &scenario, capacity).expect(rt, "memory is left")
}

/// A shared engine with room for so many entries, and its first two passes.
pub(crate) fn with_two_passes<M: Machine>(
    rt: &impl Abort,
    alloc: Global,
    text: &[u8],
    capacity: u32,
) -> (
    Shared<M>,
    Opener<Engine<M>>,
    Pass<Engine<M>>,
    Pass<Engine<M>>,
)
    requires { capacity ≤ MAX_HISTORY }
    ensures opener { IsOpenerOf result.0 result.1 }
    ensures first { IsPassOf result.0 result.2 }
    ensures second { IsPassOf result.0 result.3 }
{
    let (shared, mut opener) = opened(rt, alloc, text, capacity);
    let first = shared.pass(&mut opener).expect(rt, "no pass is out");
    let second = shared.pass(&mut opener).expect(rt, "one pass is out");
    (shared, opener, first, second)
}

/// Draws a ticket, where no other thread draws.
fn drawn_by<M: Machine>(
    rt: &impl Abort,
    shared: &Shared<M>,
    pass: Pass<Engine<M>>,
) -> Drawn<Engine<M>>
    requires { IsPassOf shared.now pass }
    ensures { IsDrawnOf shared.now result }
{
    match shared.draw(pass) {
        Ok(drawn) => drawn,
        Err(_) => panic!(rt; "one thread's draws all win"),
    }
}

/// Issues the instruction in the turn of the ticket, which has come, and compares what it comes to.
fn issued<M: Machine>(
    rt: &impl Abort,
    shared: &Shared<M>,
    drawn: Drawn<Engine<M>>,
    instr: Instr,
    want: Result<Receipt, Full>,
) -> Pass<Engine<M>>
    requires { IsDrawnOf shared.now drawn }
    ensures { IsPassOf shared.now result }
{
    match shared.try_issue(drawn, instr) {
        Ok((pass, got)) => {
            same(rt, "its turn", got, want);
            pass
        }
        Err(_not_yet) => panic!(rt; "its turn has come"),
    }
}

/// The turn of the ticket hasn't come: that of the other number has.
fn not_yet_issued<M: Machine>(
    rt: &impl Abort,
    shared: &Shared<M>,
    drawn: Drawn<Engine<M>>,
    instr: Instr,
    want: (u64, u64),
) -> Drawn<Engine<M>>
    requires { IsDrawnOf shared.now drawn }
    ensures { IsDrawnOf shared.now result }
{
    match shared.try_issue(drawn, instr) {
        Ok(_) => panic!(rt; "another ticket comes first"),
        Err(
            NotYet {
                drawn,
                ticket,
                served,
                call: _,
            },
        ) => {
            same(rt, "no turn yet", (ticket, served), want);
            drawn
        }
    }
}

/// The shared engine can't be closed while this many passes are out, and comes back.
fn not_closed<M: Machine>(
    rt: &impl Abort,
    shared: Shared<M>,
    opener: Opener<Engine<M>>,
    want: u32,
) -> (Shared<M>, Opener<Engine<M>>)
    requires { IsOpenerOf shared opener }
    ensures shared { result.0 ≡ shared }
    ensures opener { result.1 ≡ opener }
{
    match shared.close(opener) {
        Ok(_) => panic!(rt; "passes are out"),
        Err(
            StillOut {
                shared,
                opener,
                left,
            },
        ) => {
            same(rt, "passes out", left, want);
            (shared, opener)
        }
    }
}

/// Retires both passes, and closes the shared engine.
pub(crate) fn closed<M: Machine>(
    rt: &impl Abort,
    shared: Shared<M>,
    opener: Opener<Engine<M>>,
    first: Pass<Engine<M>>,
    second: Pass<Engine<M>>,
) -> Engine<M>
    requires opener { IsOpenerOf shared opener }
    requires first { IsPassOf shared first }
    requires second { IsPassOf shared second }
{
    let mut opener = opener;
    shared.retire(&mut opener, first);
    shared.retire(&mut opener, second);
    match shared.close(opener) {
        Ok(engine) => engine,
        Err(_) => panic!(rt; "no pass is out"),
    }
}

/// Two callers draw in turn, and the later ticket waits for the earlier one.
fn check_order<M: Machine>(rt: &impl Abort, alloc: Global) {
    let (shared, opener, p0, p1) = with_two_passes::<M>(rt, alloc, ONE_WORK, 3);
    let d0 = drawn_by(rt, &shared, p0);
    let d1 = drawn_by(rt, &shared, p1);
    let d1 = not_yet_issued(rt, &shared, d1, QUEUE_A, (1, 0));
    let p0 = issued(rt, &shared, d0, Instr::Tick, Ok(receipt(0, 0, Reply::Done)));
    let p1 = issued(rt, &shared, d1, QUEUE_A, Ok(receipt(1, 1, Reply::Queued)));
    let d0 = drawn_by(rt, &shared, p0);
    let p0 = issued(rt, &shared, d0, Instr::State(A), Ok(receipt(2, 2, LISTED)));
    let d1 = drawn_by(rt, &shared, p1);
    let p1 = issued(rt, &shared, d1, Instr::Tick, Err(Full));
    let (shared, opener) = not_closed(rt, shared, opener, 2);
    let engine = closed(rt, shared, opener, p0, p1);
    same(rt, "entries", engine.history().len(), 3);
}

/// Two callers issue and meet, and the first issues on.
fn check_meeting<M: Machine>(rt: &impl Abort, alloc: Global) {
    let (shared, _opener, p0, p1) = with_two_passes::<M>(rt, alloc, ONE_WORK, 4);
    let d0 = drawn_by(rt, &shared, p0);
    let p0 = issued(rt, &shared, d0, Instr::Tick, Ok(receipt(0, 0, Reply::Done)));
    let d1 = drawn_by(rt, &shared, p1);
    let p1 = issued(rt, &shared, d1, QUEUE_A, Ok(receipt(1, 1, Reply::Queued)));
    let (p0, _p1) = shared.meet(p0, p1);
    let d0 = drawn_by(rt, &shared, p0);
    let _p0 = issued(rt, &shared, d0, Instr::State(A), Ok(receipt(2, 2, LISTED)));
}

/// The caller serves on, and the other's work is pending.
fn serve_on<M: Machine, R: Wait + Abort>(
    rt: &R,
    shared: &Shared<M>,
    pass: Pass<Engine<M>>,
    other: WorkId,
) -> Pass<Engine<M>>
    requires { IsPassOf shared.now pass }
    ensures { IsPassOf shared.now result }
{
    let (pass, outcome) = shared.issue(rt, pass, Instr::State(other));
    same(rt, other.0, is_pending(outcome), true);
    pass
}

/// Two threads see each other's work, their callers meet, and both serve on.
fn check_seeing<M: Machine + Send + Sync, R: Threads + Wait + Clock + Abort + Sync>(
    rt: &R,
    alloc: Global,
) {
    let (shared, opener, p0, p1) = with_two_passes::<M>(rt, alloc, TWO_WORKS, 20_004);
    let sees_b = (p0, Part::See { own: A, other: B });
    let sees_a = (p1, Part::See { own: B, other: A });
    let ((p0, first), (p1, second)) = at_once(rt, alloc, &shared, sees_b, sees_a);
    same(rt, "the second work", first, Done::Sees(true));
    same(rt, "the first work", second, Done::Sees(true));
    let (p0, p1) = shared.meet(p0, p1);
    let p0 = serve_on(rt, &shared, p0, B);
    let p1 = serve_on(rt, &shared, p1, A);
    let engine = closed(rt, shared, opener, p0, p1);
    match engine.history() {
        [.., last_but_one, last] => {
            same(rt, "the last", (last_but_one.caller, last.caller), (0, 1));
        }
        _ => panic!(rt; "both serve on"),
    }
}

/// Two callers issue in the order of their tickets; one issues on after a meeting; two threads see each other's work pending, and meet.
pub(crate) fn check_callers<M: Machine + Send + Sync, R: Threads + Wait + Clock + Abort + Sync>(
    rt: &R,
    alloc: Global,
) {
    check_order::<M>(rt, alloc);
    check_meeting::<M>(rt, alloc);
    check_seeing::<M, R>(rt, alloc);
}
