//! The lock under load, 64 callers in several threads, each with many turns: what comes out is one history that has each caller's turns
//! once, in its order.
ghost use Rattle.std.specs.List.{All};
ghost use Rattle.std.specs.Prelude.{◌+◌, ◌<◌, ◌^◌};
ghost use Rattle.cmwq_lock.specs.Tokens.{IsDrawnOf, IsOpenerOf, IsPassOf, opener_view};
ghost use Rattle.cmwq_lock.specs.Views.{next_of};

use crate::checking::same;
use crate::lock_history::{Enter, History, Turn, opened};
use cmwq_lock::{Drawn, Kept, NotDrawn, NotDrawnWhy, NotYet, Opener, Pass, TicketLock};
use std::alloc::Global;
use std::process::Abort;
use std::sync::{Barrier, Wait};
use std::thread::{self, Threads};

/// Draws a ticket, again and again where another caller was faster. It says so, with a ticket that is drawn and a later one.
fn drawn_at_last<R: Wait + Abort>(
    rt: &R,
    lock: &TicketLock<History>,
    pass: Pass<History>,
) -> Drawn<History>
    requires { IsPassOf ⟦<History as Kept>⟧ lock.now pass }
    ensures { IsDrawnOf ⟦<History as Kept>⟧ lock.now result }
{
    let mut pass = pass;
    for _ in rt.forever() {
        match lock.draw(pass) {
            Ok(drawn) => return drawn,
            Err(NotDrawn { pass: again, why }) => {
                check_raced(rt, why);
                pass = again;
            }
        }
    }
    unreachable!()
}

fn check_raced(rt: &impl Abort, why: NotDrawnWhy) {
    match why {
        NotDrawnWhy::Raced { loaded, found } => assert!(rt; loaded < found, "{loaded} {found}"),
        NotDrawnWhy::Exhausted => panic!(rt; "tickets are left"),
    }
}

/// Takes a turn. Where it hasn't come, an earlier ticket has the turn.
fn one_turn<R: Wait + Abort>(
    rt: &R,
    lock: &TicketLock<History>,
    pass: Pass<History>,
    number: u32,
) -> Pass<History>
    requires { IsPassOf ⟦<History as Kept>⟧ lock.now pass }
    ensures { IsPassOf ⟦<History as Kept>⟧ lock.now result }
{
    let drawn = drawn_at_last(rt, lock, pass);
    match lock.try_take(drawn, Enter { number }) {
        Ok((pass, _, _length)) => pass,
        Err(
            NotYet {
                drawn,
                ticket,
                served,
                call,
            },
        ) => {
            assert!(rt; served < ticket, "{served} {ticket}");
            lock.take(rt, drawn, call).0
        }
    }
}

/// A caller's turns.
fn turns<R: Wait + Abort>(
    rt: &R,
    lock: &TicketLock<History>,
    pass: Pass<History>,
    count: u32,
) -> Pass<History>
    requires { IsPassOf ⟦<History as Kept>⟧ lock.now pass }
    ensures { IsPassOf ⟦<History as Kept>⟧ lock.now result }
{
    let mut pass = pass;
    for number in 0..count {
        pass = one_turn(rt, lock, pass, number);
    }
    pass
}

/// Gives out so many passes.
fn passes_of(
    rt: &impl Abort,
    alloc: Global,
    lock: &TicketLock<History>,
    opener: &mut Opener<History>,
    count: u32,
) -> Vec<Pass<History>>
    requires opener { IsOpenerOf ⟦<History as Kept>⟧ lock.now opener.old }
    requires room { next_of (opener_view opener.old) + count < 2 ^ 32 }
    ensures opener { IsOpenerOf ⟦<History as Kept>⟧ lock.now opener.new }
    ensures passes { All (IsPassOf ⟦<History as Kept>⟧ lock.now) result.items }
{
    let mut passes = Vec::new(alloc);
    for _ in 0..count {
        let pass = lock.pass(opener).expect(rt, "fewer than 64 are out");
        passes.push(pass).expect(rt, "memory is left");
    }
    passes
}

/// The turns of one thread's callers, one caller after another, which begin once all threads are there.
fn turns_of_all<R: Wait + Abort>(
    rt: &R,
    start: &Barrier,
    lock: &TicketLock<History>,
    passes: Vec<Pass<History>>,
    count: u32,
) -> Vec<Pass<History>>
    requires { All (IsPassOf ⟦<History as Kept>⟧ lock.now) passes.items }
    ensures { All (IsPassOf ⟦<History as Kept>⟧ lock.now) result.items }
{
    let mut done = Vec::new(*passes.allocator());
    start.wait(rt);
    for pass in passes {
        let pass = turns(rt, lock, pass, count);
        done.push(pass).expect(rt, "memory is left");
    }
    done
}

/// All callers' turns, each thread with so many callers. All threads have ended then.
fn all_turns<R: Threads + Wait + Abort + Sync>(
    rt: &R,
    lock: &TicketLock<History>,
    groups: Vec<Vec<Pass<History>>>,
    count: u32,
) -> Vec<Vec<Pass<History>>>
    requires { All (λ passes. All (IsPassOf ⟦<History as Kept>⟧ lock.now) passes.items) groups.items }
    ensures { All (λ passes. All (IsPassOf ⟦<History as Kept>⟧ lock.now) passes.items) result.items }
{
    let start = Barrier::new(groups.len());
    thread::map_vec(
        rt,
        groups,
        &|passes| { turns_of_all(rt, &start, lock, passes, count) },
    )
    .expect(rt, "memory is left")
}

fn retire_all(lock: &TicketLock<History>, opener: &mut Opener<History>, passes: Vec<Pass<History>>)
    requires opener { IsOpenerOf ⟦<History as Kept>⟧ lock.now opener.old }
    requires passes { All (IsPassOf ⟦<History as Kept>⟧ lock.now) passes.items }
    ensures { IsOpenerOf ⟦<History as Kept>⟧ lock.now opener.new }
{
    for pass in passes {
        lock.retire(opener, pass);
    }
}

/// The passes in groups of so many.
fn grouped(
    rt: &impl Abort,
    lock: &TicketLock<History>,
    passes: Vec<Pass<History>>,
    size: usize,
) -> Vec<Vec<Pass<History>>>
    requires { All (IsPassOf ⟦<History as Kept>⟧ lock.now) passes.items }
    ensures { All (λ passes. All (IsPassOf ⟦<History as Kept>⟧ lock.now) passes.items) result.items }
{
    let _ = lock;
    let alloc = *passes.allocator();
    let mut groups = Vec::new(alloc);
    let mut group = Vec::new(alloc);
    for pass in passes {
        group.push(pass).expect(rt, "memory is left");
        if group.len() >= size {
            groups.push(group).expect(rt, "memory is left");
            group = Vec::new(alloc);
        }
    }
    groups
}

/// The history that 64 callers leave, so many of them in a thread, and each with so many turns. All passes come back, and all threads have ended.
fn history_of<R: Threads + Wait + Abort + Sync>(
    rt: &R,
    alloc: Global,
    callers: usize,
    count: u32,
) -> Vec<Turn> {
    let (lock, mut opener) = opened(rt, alloc);
    let passes = passes_of(rt, alloc, &lock, &mut opener, 64);
    let groups = grouped(rt, &lock, passes, callers);
    let groups = all_turns(rt, &lock, groups, count);
    for passes in groups {
        retire_all(&lock, &mut opener, passes);
    }
    match lock.close(opener) {
        Ok(history) => history.turns,
        Err(_) => panic!(rt; "no pass is out"),
    }
}

/// The turns have the tickets 0, 1, .., and each caller's numbers rise from 0. Answers how many each caller has had.
fn counts_of(rt: &impl Abort, alloc: Global, turns: &[Turn], callers: usize) -> Vec<u32> {
    let mut counts = vec![in alloc; 0u32; callers].expect(rt, "memory is left");
    for (place, turn) in turns.iter().enumerate() {
        same(rt, place, turn.ticket, place as u64);
        let count = counts.get_mut(turn.caller as usize).expect(rt, "a caller");
        same(rt, place, turn.number, *count);
        *count = count.saturating_add(1);
    }
    counts
}

/// 64 callers, so many of them in a thread, leave a history of all their turns.
fn check_load<R: Threads + Wait + Abort + Sync>(rt: &R, alloc: Global, callers: usize, count: u32) {
    let turns = history_of(rt, alloc, callers, count);
    let counts = counts_of(rt, alloc, turns.as_slice(), 64);
    for (caller, found) in counts.iter().enumerate() {
        same(rt, caller, *found, count);
    }
}

/// Eight callers to a thread, 12,500 turns each, 100,000 a thread; and one to a thread, 50 turns each: with more threads than cores each
/// turn waits longer for one certain thread.
#[test]
fn threads_leave_one_history(rt: HostRuntime) {
    check_load(&rt, rt.alloc(), 8, 12_500);
    check_load(&rt, rt.alloc(), 1, 50);
}
