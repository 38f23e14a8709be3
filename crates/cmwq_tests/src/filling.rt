//! Shared engines whose history two threads fill, and whose 64 passes are all out.
ghost use Rattle.cmwq_engine.specs.Shared.{IsOpenerOf, IsPassOf};
ghost use Rattle.cmwq_lock.specs.Tokens.{opener_view};
ghost use Rattle.cmwq_lock.specs.Views.{next_of};
ghost use Rattle.std.specs.List.{All};
ghost use Rattle.std.specs.Prelude.{◌≡◌, ◌+◌, ◌<◌, ◌^◌};

use crate::at_once::{Done, Outcomes, Part, at_once};
use crate::checking::same;
use crate::shared::{ONE_WORK, closed, opened, with_two_passes};
use cmwq_engine::{Engine, Shared};
use cmwq_lock::{Opener, Pass};
use cmwq_table::Machine;
use cmwq_types::{Instr, Reply};
use std::alloc::Global;
use std::process::Abort;
use std::sync::Wait;
use std::thread::Threads;
use std::time::Clock;

/// Of eight questions five came into the history, and three found it full.
fn check_asked(rt: &impl Abort, first: Done, second: Done) {
    let want = Outcomes {
        entered: 5,
        full: 3,
    };
    match (first, second) {
        (Done::Asked(one), Done::Asked(other)) => same(rt, "five of eight", one.and(other), want),
        _ => panic!(rt; "both threads ask"),
    }
}

/// Of eight questions by two threads five come into a history of five, in the order of their tickets.
fn check_filling<M: Machine + Send + Sync, R: Threads + Wait + Clock + Abort + Sync>(
    rt: &R,
    alloc: Global,
) {
    let (shared, opener, p0, p1) = with_two_passes::<M>(rt, alloc, ONE_WORK, 5);
    let (asks, asks_too) = ((p0, Part::Ask), (p1, Part::Ask));
    let ((p0, first), (p1, second)) = at_once(rt, alloc, &shared, asks, asks_too);
    check_asked(rt, first, second);
    let engine = closed(rt, shared, opener, p0, p1);
    let history = engine.history();
    same(rt, "entries", history.len(), 5);
    for (place, entry) in history.iter().enumerate() {
        same(rt, place, entry.ticket, place as u64);
        same(
            rt,
            place,
            (entry.instr, entry.reply),
            (Instr::Busy, Reply::No),
        );
    }
}

/// So many passes more.
fn more_passes<M: Machine>(
    rt: &impl Abort,
    alloc: Global,
    shared: &Shared<M>,
    opener: &mut Opener<Engine<M>>,
    count: u32,
) -> Vec<Pass<Engine<M>>>
    requires opener { IsOpenerOf shared.now opener.old }
    requires room { next_of (opener_view opener.old) + count < 2 ^ 32 }
    ensures opener { IsOpenerOf shared.now opener.new }
    ensures next { next_of (opener_view opener.new) ≡ next_of (opener_view opener.old) + count }
    ensures passes { All (IsPassOf shared.now) result.items }
{
    let mut passes = Vec::new(alloc);
    for _ in 0..count {
        let pass = shared.pass(opener).expect(rt, "fewer than 64 are out");
        passes.push(pass).expect(rt, "memory is left");
    }
    passes
}

/// Retires the passes.
fn retire_all<M: Machine>(
    shared: &Shared<M>,
    opener: &mut Opener<Engine<M>>,
    passes: Vec<Pass<Engine<M>>>,
)
    requires opener { IsOpenerOf shared.now opener.old }
    requires passes { All (IsPassOf shared.now) passes.items }
    ensures { IsOpenerOf shared.now opener.new }
{
    for pass in passes {
        shared.retire(opener, pass);
    }
}

/// One more pass is refused.
fn refuse_more<M: Machine>(rt: &impl Abort, shared: &Shared<M>, opener: &mut Opener<Engine<M>>)
    requires opener { IsOpenerOf shared.now opener.old }
    requires room { next_of (opener_view opener.old) < 2 ^ 32 }
    ensures opener { IsOpenerOf shared.now opener.new }
    ensures next { next_of (opener_view opener.new) ≡ next_of (opener_view opener.old) }
{
    match shared.pass(opener) {
        Ok(_) => panic!(rt; "64 passes are out"),
        Err(_too_many) => {}
    }
}

/// A new caller issues one instruction.
fn issue_once<M: Machine, R: Wait + Abort>(
    rt: &R,
    shared: &Shared<M>,
    opener: &mut Opener<Engine<M>>,
)
    requires opener { IsOpenerOf shared.now opener.old }
    requires room { next_of (opener_view opener.old) < 2 ^ 32 }
    ensures { IsOpenerOf shared.now opener.new }
{
    let pass = shared.pass(opener).expect(rt, "63 passes are out");
    let (pass, _) = shared.issue(rt, pass, Instr::Busy);
    shared.retire(opener, pass);
}

/// The one entry is of caller 64.
fn check_last<M: Machine>(rt: &impl Abort, shared: Shared<M>, opener: Opener<Engine<M>>)
    requires { IsOpenerOf shared opener }
{
    match shared.close(opener) {
        Ok(engine) => match engine.history() {
            [entry] => same(rt, "the caller", entry.caller, 64),
            _ => panic!(rt; "one entry"),
        },
        Err(_) => panic!(rt; "no pass is out"),
    }
}

/// With 64 callers out one more is refused. Once one is retired there is one more, and what it issues stands in the history under its own
/// number.
fn check_caller_64<M: Machine, R: Wait + Abort>(rt: &R, alloc: Global) {
    let (shared, mut opener) = opened::<M>(rt, alloc, ONE_WORK, 1);
    let mut passes = more_passes(rt, alloc, &shared, &mut opener, 64);
    refuse_more(rt, &shared, &mut opener);
    let last = passes.pop().expect(rt, "64 passes are out");
    shared.retire(&mut opener, last);
    issue_once(rt, &shared, &mut opener);
    retire_all(&shared, &mut opener, passes);
    check_last(rt, shared, opener);
}

/// Two threads fill a history, and a pass after the 64th has a number of its own.
pub(crate) fn check_long<M: Machine + Send + Sync, R: Threads + Wait + Clock + Abort + Sync>(
    rt: &R,
    alloc: Global,
) {
    check_filling::<M, R>(rt, alloc);
    check_caller_64::<M, R>(rt, alloc);
}
