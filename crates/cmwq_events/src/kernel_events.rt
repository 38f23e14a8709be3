//! The events of a run, as they come.
ghost use Rattle.cmwq_table.specs.Told.{is_end};
ghost use Rattle.cmwq_events.specs.Followed.{LeadsTo, followed_on, none_followed};
ghost use Rattle.cmwq_events.specs.KernelEvents.{activate_events, cpus_traced, end_events, event_by, instance_events, instr_events, pool_of_place, queue_events, start_events};
ghost use Rattle.cmwq_table.specs.Laws.{tells_wake};
ghost use Rattle.cmwq_table.specs.State.{State};
ghost use Rattle.cmwq_types.specs.Setting.{IsSetting};
ghost use Rattle.cmwq_events.specs.KernelTasks.{task_cpu};
ghost use Rattle.std.specs.List.{flat_map, list_any};
ghost use Rattle.std.specs.Prelude.{◌≡◌, ◌++◌, ◌==◌, IfOk, OnOk, length};

use crate::doer::{Before, Doer};
use crate::kernel_event::{KernelEvent, Tracepoint};
use crate::stamped::{Instance, Stamped, stamped_from};
use cmwq_table::{Pending, Reads, Running};
use cmwq_types::{Event, Instr, NoMemory, Place, Reply, Scenario, WorkId};
use std::alloc::Global;
use std::marker::Model;

/// The events of a run so far, and the instances of the works to whose state they lead.
#[derive(Drop)]
pub struct KernelEvents {
    stamp: u64,
    pending: Vec<Option<Pending>>,
    running: Vec<Option<Running>>,
    told: Vec<KernelEvent>,
}

impl Model for KernelEvents {
    ghost use Rattle.cmwq_events.specs.Followed.{Followed, followed};

    ghost Value = { Followed };

    ghost view = { λ e. followed e.stamp e.pending.items e.running.items e.told.items };
}

impl KernelEvents {
    /// At the start of a run of a scenario with so many works there are none.
    pub fn none(alloc: Global, works: usize) -> Result<KernelEvents, NoMemory>
        ensures { IfOk result (λ events. events ≡ none_followed works) }
    {
        Ok(KernelEvents {
            stamp: 0,
            pending: vec![in alloc; None; works]?,
            running: vec![in alloc; None; works]?,
            told: Vec::new(alloc),
        })
    }

    /// The events so far, in order.
    pub fn events(&self) -> &[KernelEvent]
        ensures { result.now ≡ self.now.events }
    {
        &self.told
    }

    /// Follows an instruction that led to the machine's state and was given this reply.
    pub fn follow<R: Reads>(
        &mut self,
        alloc: Global,
        instr: Instr,
        machine: &R,
        reply: Reply,
    ) -> Result<(), NoMemory>
        requires { length (R.state machine.now).running ≡ length (R.loaded machine.now).works }
        ensures { OnOk result ((s : State) → LeadsTo self.old s → self.new ≡ followed_on (R.loaded machine.now) s instr (R.state machine.now, reply) self.old) }
    {
        let KernelEvents {
            stamp,
            pending,
            running,
            told,
        } = self;
        let before = Before {
            pending: &*pending,
            running: &*running,
        };
        let doer = before.doer(instr, machine, reply);
        let found = stamped_from(alloc, *stamp, machine)?;
        push_end(doer, reply, told)?;
        push_instances(doer, *stamp, reply, &found, told)?;
        *stamp = machine.next_stamp();
        copy_pending(machine, pending)?;
        copy_running(machine, running)
    }
}

/// Makes these the pending instances of the machine's works.
fn copy_pending<R: Reads>(machine: &R, pending: &mut Vec<Option<Pending>>) -> Result<(), NoMemory>
    ensures { OnOk result (pending.new.items ≡ (R.state machine.now).pending) }
{
    pending.clear();
    for w in 0..machine.scenario().works.len() {
        pending.push(machine.pending_of(w))?;
    }
    Ok(())
}

/// Makes these the running instances of the machine's works.
fn copy_running<R: Reads>(machine: &R, running: &mut Vec<Option<Running>>) -> Result<(), NoMemory>
    requires { length (R.state machine.now).running ≡ length (R.loaded machine.now).works }
    ensures { OnOk result (running.new.items ≡ (R.state machine.now).running) }
{
    running.clear();
    for w in 0..machine.scenario().works.len() {
        running.push(machine.running_of(w))?;
    }
    Ok(())
}

/// Pushes the end of an execution, if the reply tells one.
fn push_end(doer: Doer, reply: Reply, events: &mut Vec<KernelEvent>) -> Result<(), NoMemory>
    ensures { OnOk result (events.new.items ≡ events.old.items ++ end_events doer reply) }
{
    if let Reply::Event { work, event } = reply
        && is_end(event)
    {
        events.push(event_by(doer, work, Tracepoint::ExecuteEnd))?;
    }
    Ok(())
}

/// Pushes what comes of these instances.
fn push_instances(
    doer: Doer,
    next: u64,
    reply: Reply,
    found: &[Stamped],
    events: &mut Vec<KernelEvent>,
) -> Result<(), NoMemory>
    ensures { OnOk result (events.new.items ≡ events.old.items
        ++ flat_map (λ one. instance_events doer next reply one.work one.instance) found.now) }
{
    for one in found {
        push_instance(doer, next, reply, *one, events)?;
    }
    Ok(())
}

/// Pushes what comes of an instance with a new stamp.
fn push_instance(
    doer: Doer,
    next: u64,
    reply: Reply,
    one: Stamped,
    events: &mut Vec<KernelEvent>,
) -> Result<(), NoMemory>
    ensures { OnOk result (events.new.items ≡ events.old.items ++ instance_events doer next reply one.work one.instance) }
{
    match one.instance {
        Instance::Pending(p) => {
            push_queued(doer, next, one.work, p, events)?;
            push_activated(doer, one.work, p.place, events)
        }
        Instance::Running(_) => push_started(doer, reply, one.work, events),
    }
}

/// Pushes that the work is queued, if it stands in a pool and was born with a stamp that isn't below.
fn push_queued(
    doer: Doer,
    next: u64,
    work: WorkId,
    p: Pending,
    events: &mut Vec<KernelEvent>,
) -> Result<(), NoMemory>
    ensures { OnOk result (events.new.items ≡ events.old.items ++ queue_events doer next work p) }
{
    if p.place.is_placed() && p.born >= next {
        let queued = Tracepoint::QueueWork {
            cpu: doer.cpu,
            pool: pool_of_place(p.place),
        };
        events.push(event_by(doer, work, queued))?;
    }
    Ok(())
}

/// Pushes that the work comes into its pool's list, if that is its place.
fn push_activated(
    doer: Doer,
    work: WorkId,
    place: Place,
    events: &mut Vec<KernelEvent>,
) -> Result<(), NoMemory>
    ensures { OnOk result (events.new.items ≡ events.old.items ++ activate_events doer work place) }
{
    if let Place::Listed(_) = place {
        events.push(event_by(doer, work, Tracepoint::ActivateWork))?;
    }
    Ok(())
}

/// Pushes that the work starts, unless it wakes.
fn push_started(
    doer: Doer,
    reply: Reply,
    work: WorkId,
    events: &mut Vec<KernelEvent>,
) -> Result<(), NoMemory>
    ensures { OnOk result (events.new.items ≡ events.old.items ++ start_events doer reply work) }
{
    if !tells_wake(reply) {
        events.push(event_by(doer, work, Tracepoint::ExecuteStart))?;
    }
    Ok(())
}

fn event_by(doer: Doer, work: WorkId, tracepoint: Tracepoint) -> KernelEvent
    ensures { result ≡ event_by doer work tracepoint }
{
    KernelEvent {
        time: doer.time,
        task: doer.task,
        work,
        tracepoint,
    }
}

/// Whether an instance of a work ends with the event.
fn is_end(event: Event) -> bool
    ensures { result ≡ is_end event }
{
    matches!(event, Event::Finishes | Event::FinishesAndStarts)
}

/// Whether the reply tells that a sleeper wakes.
fn tells_wake(reply: Reply) -> bool
    ensures { result ≡ tells_wake reply }
{
    matches!(
        reply,
        Reply::Event {
            event: Event::Wakes,
            ..
        }
    )
}

/// The pool in which a work is placed.
fn pool_of_place(place: Place) -> u8
    ensures { result ≡ pool_of_place place }
{
    match place {
        Place::Inactive(pool) | Place::Listed(pool) | Place::Deferred(pool) => pool,
        Place::Timer { .. } => 0,
    }
}

/// How many CPUs a trace with these events has: the scenario's, and one more where an unbound worker does something.
pub fn cpus_traced(scenario: &Scenario, events: &[KernelEvent]) -> u8
    requires { IsSetting scenario.now }
    ensures { result ≡ cpus_traced scenario.now events.now }
{
    if has_unbound(scenario, events) {
        scenario.cpus + 1
    } else {
        scenario.cpus
    }
}

/// Whether an unbound worker does something.
fn has_unbound(scenario: &Scenario, events: &[KernelEvent]) -> bool
    ensures { result ≡ list_any (λ one. task_cpu scenario.now one.task == scenario.now.cpus) events.now }
{
    for one in events {
        if one.task.cpu(scenario) == scenario.cpus {
            return true;
        }
    }
    false
}
