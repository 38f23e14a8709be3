//! Executions of instances: those that are open along a run, and those that have ended.
ghost use Rattle.cmwq_table.specs.Told.{is_end, is_start};
ghost use Rattle.cmwq_slices.specs.Executions.{event_execution, execution_begun, execution_ended, execution_to, executions_after, executions_to, no_executions};
ghost use Rattle.cmwq_types.specs.declared.limits.TheConstants.{MAX_WORKS};
ghost use Rattle.std.specs.Prelude.{◌≡◌, ◌≤◌, ◌++◌, IfOk, OnOk, if◌then◌else◌, length, slice_index_or, slice_set};

use cmwq_table::{Reads, Running};
use cmwq_types::{Event, NoMemory, Reply, WorkId};
use std::alloc::Global;
use std::marker::Model;

/// An instance that runs, since when, and on whom.
#[derive(Clone, Copy, PartialEq, Eq)]
pub struct OpenExecution {
    /// The stamp of the instance's queueing.
    pub born: u64,
    /// The pool in which it runs.
    pub pool: u8,
    /// The number of its worker in that pool, or `RESCUER`.
    pub worker: u8,
    /// The time of its start, in ticks.
    pub since: u64,
}

/// An instance of a work on a worker, from its start to its end.
#[derive(Clone, Copy, PartialEq, Eq)]
pub struct Execution {
    /// Whose instance it was.
    pub work: WorkId,
    /// The stamp of its queueing.
    pub born: u64,
    /// The pool in which it ran.
    pub pool: u8,
    /// The number of its worker in that pool, or `RESCUER`.
    pub worker: u8,
    /// The time of its start, in ticks.
    pub since: u64,
    /// The time of its end.
    pub until: u64,
}

/// The open executions of all works, by number.
#[derive(Drop)]
pub struct Executions(Vec<Option<OpenExecution>>);

impl Model for Executions {
    ghost use Rattle.cmwq_slices.specs.declared.executions.OpenExecution.{OpenExecution};
    ghost use Rattle.std.specs.Prelude.{List, Option};

    ghost Value = { List (Option OpenExecution) };

    ghost view = { λ executions. executions.0.items };
}

impl Executions {
    /// No execution of so many works is open.
    pub fn none(alloc: Global, works: usize) -> Result<Executions, NoMemory>
        ensures { IfOk result (λ executions. executions ≡ no_executions works) }
    {
        Ok(Executions(vec![in alloc; None; works]?))
    }

    /// Follows an instruction that was given this reply and led to the machine's state. Answers the execution that has ended by it, if
    /// one has.
    pub fn follow<R: Reads>(&mut self, machine: &R, reply: Reply) -> Option<Execution>
        ensures ended { result ≡ execution_ended (R.state machine.now) reply self.old }
        ensures executions { self.new ≡ executions_after (R.state machine.now) reply self.old }
    {
        let Reply::Event { work, event } = reply else {
            return None;
        };
        follow_event(&mut self.0, machine, work, event)
    }

    /// Pushes what the open executions come to where they end at this time.
    pub fn push_executions(
        &self,
        time: u64,
        executions: &mut Vec<Execution>,
    ) -> Result<(), NoMemory>
        requires { length self.now ≤ MAX_WORKS }
        ensures { OnOk result (executions.new.items ≡ executions.old.items ++ executions_to time 0 self.now) }
    {
        push_all(&self.0, time, executions)
    }
}

fn follow_event<R: Reads>(
    all: &mut [Option<OpenExecution>],
    machine: &R,
    work: WorkId,
    event: Event,
) -> Option<Execution>
    ensures ended { result ≡ (if is_end event then execution_to (R.state machine.now).time work.0 (slice_index_or all.old work.0 None) else None) }
    ensures executions { all.new ≡ event_execution (R.state machine.now) work.0 event all.old }
{
    let w = work.0 as usize;
    let was = all.get(w).copied().unwrap_or(None);
    if is_start(event) {
        put(all, w, begun(machine.time(), machine.running_of(w)));
    } else if is_end(event) {
        put(all, w, None);
    }
    if is_end(event) {
        return ended(machine.time(), work, was);
    }
    None
}

/// Puts it at its work's number, if there is one of the number.
fn put(all: &mut [Option<OpenExecution>], w: usize, execution: Option<OpenExecution>)
    ensures { all.new ≡ slice_set all.old w execution }
{
    if w < all.len() {
        all[w] = execution;
    }
}

fn begun(time: u64, running: Option<Running>) -> Option<OpenExecution>
    ensures { result ≡ execution_begun time running }
{
    running.map(|r| OpenExecution {
        born: r.born,
        pool: r.pool,
        worker: r.worker,
        since: time,
    })
}

fn ended(time: u64, work: WorkId, execution: Option<OpenExecution>) -> Option<Execution>
    ensures { result ≡ execution_to time work.0 execution }
{
    execution.map(|open| Execution {
        work,
        born: open.born,
        pool: open.pool,
        worker: open.worker,
        since: open.since,
        until: time,
    })
}

/// Whether an instance of a work starts with the event.
fn is_start(event: Event) -> bool
    ensures { result ≡ is_start event }
{
    matches!(
        event,
        Event::Starts | Event::FinishesAndStarts | Event::StartsOnRescuer
    )
}

/// Whether an instance of a work ends with the event.
fn is_end(event: Event) -> bool
    ensures { result ≡ is_end event }
{
    matches!(event, Event::Finishes | Event::FinishesAndStarts)
}

fn push_all(
    all: &[Option<OpenExecution>],
    time: u64,
    executions: &mut Vec<Execution>,
) -> Result<(), NoMemory>
    requires { length all.now ≤ MAX_WORKS }
    ensures { OnOk result (executions.new.items ≡ executions.old.items ++ executions_to time 0 all.now) }
{
    for (w, open) in all.iter().enumerate() {
        if let Some(execution) = ended(time, WorkId(w as u16), *open) {
            executions.push(execution)?;
        }
    }
    Ok(())
}
