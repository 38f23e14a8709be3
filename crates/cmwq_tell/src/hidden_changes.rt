//! The hidden changes of an instruction, read off the machine behind it.
ghost use Rattle.cmwq_table.specs.Told.{is_start};
ghost use Rattle.cmwq_table.specs.State.{State};
ghost use Rattle.cmwq_table.specs.Table.{run_of};
ghost use Rattle.cmwq_table.specs.View.{entries_from};
ghost use Rattle.cmwq_tell.specs.Hidden.{change_of, hidden, pool_of_place, put_by_stamp, stamped_from, start_told};
ghost use Rattle.std.specs.Prelude.{◌≡◌, ◌++◌, IfOk, OnOk, Some, map};

use crate::change::Change;
use cmwq_table::{Pending, Reads, Running};
use cmwq_types::{Event, NoMemory, Place, Reply, WorkId, WorkRun};
use std::alloc::Global;

/// The hidden changes that lead to the machine's state, from one of this time and next stamp, by an instruction that was given this
/// reply.
pub(crate) fn hidden<R: Reads>(
    alloc: Global,
    time: u64,
    next: u64,
    after: &R,
    reply: Reply,
) -> Result<Vec<Change>, NoMemory>
    ensures { IfOk result (λ changes. (s : State) → time ≡ s.time → next ≡ s.next → changes.items ≡ hidden s (R.state after.now) reply) }
{
    let mut changes = Vec::new(alloc);
    if after.time() != time {
        changes.push(Change::Now(after.time()))?;
    }
    if let Some(start) = start_told(after, reply) {
        changes.push(start)?;
    }
    let entries = stamped_from(alloc, next, after)?;
    push_changes(&mut changes, next, &entries)?;
    Ok(changes)
}

/// The start of which the reply tells, with the pool and the worker that have the work in the machine's state.
fn start_told<R: Reads>(after: &R, reply: Reply) -> Option<Change>
    ensures { result ≡ start_told (R.state after.now) reply }
{
    let Reply::Event { work, event } = reply else {
        return None;
    };
    if !is_start(event) {
        return None;
    }
    let run = after.running_of(work.0 as usize)?;
    Some(Change::Started {
        work,
        run: run_of(run),
    })
}

/// Whether an instance of a work starts with the event.
fn is_start(event: Event) -> bool
    ensures { result ≡ is_start event }
{
    matches!(
        event,
        Event::Starts | Event::FinishesAndStarts | Event::StartsOnRescuer
    )
}

/// Where the running work runs.
fn run_of(running: Running) -> WorkRun
    ensures { Some result ≡ run_of (Some running) }
{
    WorkRun {
        pool: running.pool,
        worker: running.worker,
        mode: running.mode,
    }
}

/// What became of each of these works.
fn push_changes(
    changes: &mut Vec<Change>,
    next: u64,
    entries: &[(WorkId, Pending)],
) -> Result<(), NoMemory>
    ensures { OnOk result (changes.new.items ≡ changes.old.items ++ map (change_of next) entries.now) }
{
    for entry in entries {
        changes.push(change_of(next, *entry))?;
    }
    Ok(())
}

/// What became of a work that has a new stamp.
fn change_of(next: u64, entry: (WorkId, Pending)) -> Change
    ensures { result ≡ change_of next entry }
{
    let (work, pending) = entry;
    let place = pending.place;
    if pending.born < next {
        let pool = pool_of_place(place);
        return Change::Activated { work, pool };
    }
    Change::Placed { work, place }
}

/// The pool in which a work is placed.
fn pool_of_place(place: Place) -> u8
    ensures { result ≡ pool_of_place place }
{
    match place {
        Place::Inactive(pool) | Place::Listed(pool) | Place::Deferred(pool) => pool,
        Place::Timer { .. } => 0,
    }
}

/// The machine's pending works whose stamp isn't below, by stamp.
fn stamped_from<R: Reads>(
    alloc: Global,
    next: u64,
    machine: &R,
) -> Result<Vec<(WorkId, Pending)>, NoMemory>
    ensures { IfOk result (λ found. found.items ≡ stamped_from next (entries_from 0 (R.state machine.now).pending)) }
{
    let mut found = Vec::new(alloc);
    for w in (0..machine.scenario().works.len()).rev() {
        match machine.pending_of(w) {
            Some(pending) if pending.stamp >= next => {
                put_by_stamp(&mut found, (WorkId(w as u16), pending))?;
            }
            _ => {}
        }
    }
    Ok(found)
}

/// Puts a work in its place: before the first one of a later stamp.
fn put_by_stamp(
    found: &mut Vec<(WorkId, Pending)>,
    entry: (WorkId, Pending),
) -> Result<(), NoMemory>
    ensures { OnOk result (found.new.items ≡ put_by_stamp entry found.old.items) }
{
    let mut at = 0;
    while at < found.len() && found[at].1.stamp <= entry.1.stamp {
        at += 1;
    }
    found.insert(at, entry)?;
    Ok(())
}
