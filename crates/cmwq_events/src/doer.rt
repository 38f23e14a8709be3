//! Who does what an instruction does.
ghost use Rattle.cmwq_events.specs.KernelEvents.{asked_cpu, body_cpu, doer_of, doing_task, event_cpu, mover, op_cpu, place_cpu, reply_cpu, timer_cpu, worker_of};
ghost use Rattle.cmwq_table.specs.State.{State};
ghost use Rattle.cmwq_types.specs.Scenario.{local_cpu};
ghost use Rattle.std.specs.Prelude.{◌≡◌, None, slice_index_or};

use crate::kernel_task::{KernelTask, is_unbound};
use cmwq_table::{Pending, Reads, Running};
use cmwq_types::{Event, Instr, Op, Place, Reply, Scenario};

/// Who passes the tracepoints of an instruction, when, and for which CPU a work is asked.
#[derive(Clone, Copy, PartialEq, Eq)]
pub struct Doer {
    /// When, in ticks.
    pub time: u64,
    /// In which task.
    pub task: KernelTask,
    /// The CPU for which a work is asked.
    pub cpu: u8,
}

/// The instances of all works before an instruction, by the numbers of works.
#[derive(Clone, Copy)]
pub(crate) struct Before<'a> {
    pub(crate) pending: &'a [Option<Pending>],
    pub(crate) running: &'a [Option<Running>],
}

impl Before<'_> {
    fn pending_of(self, w: usize) -> Option<Pending>
        ensures { result ≡ slice_index_or self.entry.pending.now w None }
    {
        self.pending.get(w).copied().unwrap_or(None)
    }

    fn running_of(self, w: usize) -> Option<Running>
        ensures { result ≡ slice_index_or self.entry.running.now w None }
    {
        self.running.get(w).copied().unwrap_or(None)
    }

    /// Who carries out the instruction, which led to the machine's state and was given this reply.
    pub(crate) fn doer<R: Reads>(self, instr: Instr, machine: &R, reply: Reply) -> Doer
        ensures { (s : State) → self.entry.pending.now ≡ s.pending → self.entry.running.now ≡ s.running
            → result ≡ doer_of (R.loaded machine.now) s instr (R.state machine.now, reply) }
    {
        Doer {
            time: machine.time(),
            task: self.task(machine, reply),
            cpu: self.asked_cpu(machine.scenario(), instr, reply),
        }
    }

    /// In which task it is carried out.
    fn task<R: Reads>(self, machine: &R, reply: Reply) -> KernelTask
        ensures { (s : State) → self.entry.pending.now ≡ s.pending → self.entry.running.now ≡ s.running
            → result ≡ doing_task (R.loaded machine.now) s (R.state machine.now) reply }
    {
        let Reply::Event { work, event } = reply else {
            return KernelTask::Actor;
        };
        let w = work.0 as usize;
        mover(
            machine.scenario(),
            w,
            event,
            self.pending_of(w),
            self.running_of(w),
            machine.running_of(w),
        )
    }

    /// For which CPU the instruction asks where it queues a work.
    fn asked_cpu(self, scenario: &Scenario, instr: Instr, reply: Reply) -> u8
        ensures { (s : State) → self.entry.pending.now ≡ s.pending → self.entry.running.now ≡ s.running
            → result ≡ asked_cpu scenario.now s instr reply }
    {
        match instr {
            Instr::Queue(_, cpu) | Instr::Delay(_, cpu, _) | Instr::Mod(_, cpu, _) => cpu,
            Instr::FlushDelayed(work) => timer_cpu(self.pending_of(work.0 as usize)),
            _ => self.reply_cpu(scenario, reply),
        }
    }

    fn reply_cpu(self, scenario: &Scenario, reply: Reply) -> u8
        ensures { (s : State) → self.entry.pending.now ≡ s.pending → self.entry.running.now ≡ s.running
            → result ≡ reply_cpu scenario.now s reply }
    {
        let Reply::Event { work, event } = reply else {
            return 0;
        };
        let w = work.0 as usize;
        event_cpu(scenario, w, event, self.pending_of(w), self.running_of(w))
    }
}

/// Who moves the work by the event, where it waited and ran so before, and runs so now.
fn mover(
    scenario: &Scenario,
    w: usize,
    event: Event,
    pending: Option<Pending>,
    before: Option<Running>,
    after: Option<Running>,
) -> KernelTask
    ensures { result ≡ mover scenario.now w event pending before after }
{
    match event {
        Event::Fires => KernelTask::Idle {
            cpu: timer_cpu(pending),
        },
        _ => worker_of(scenario, w, before.or(after)),
    }
}

/// The worker that has the work, or the actor where none has.
fn worker_of(scenario: &Scenario, w: usize, running: Option<Running>) -> KernelTask
    ensures { result ≡ worker_of scenario.now w running }
{
    match running {
        Some(r) => KernelTask::executor(scenario, w, r.pool, r.worker),
        None => KernelTask::Actor,
    }
}

/// For which CPU the machine asks that moves the work by the event, where it waited and ran so before.
fn event_cpu(
    scenario: &Scenario,
    w: usize,
    event: Event,
    pending: Option<Pending>,
    running: Option<Running>,
) -> u8
    ensures { result ≡ event_cpu scenario.now w event pending running }
{
    match event {
        Event::Fires => timer_cpu(pending),
        _ => body_cpu(scenario, w, running),
    }
}

/// For which CPU the work's body asks by its next operation.
fn body_cpu(scenario: &Scenario, w: usize, running: Option<Running>) -> u8
    ensures { result ≡ body_cpu scenario.now w running }
{
    match running {
        Some(r) => op_cpu(scenario, r.pool, scenario.op_of(w, r.pc)),
        None => 0,
    }
}

/// For which CPU a body that runs in the pool asks by the operation.
fn op_cpu(scenario: &Scenario, pool: u8, op: Op) -> u8
    ensures { result ≡ op_cpu scenario.now pool op }
{
    match op {
        Op::Queue(_, cpu) => cpu,
        Op::Delay(..) | Op::Mod(..) => local_cpu(scenario, pool),
        _ => 0,
    }
}

/// The CPU of the pool, and CPU 0 where that is unbound.
fn local_cpu(scenario: &Scenario, pool: u8) -> u8
    ensures { result ≡ local_cpu scenario.now pool }
{
    if is_unbound(scenario, pool) {
        0
    } else {
        pool / 2
    }
}

/// The CPU of the timer for which the work waits.
fn timer_cpu(pending: Option<Pending>) -> u8
    ensures { result ≡ timer_cpu pending }
{
    match pending {
        Some(p) => place_cpu(p.place),
        None => 0,
    }
}

fn place_cpu(place: Place) -> u8
    ensures { result ≡ place_cpu place }
{
    match place {
        Place::Timer { cpu, .. } => cpu,
        _ => 0,
    }
}
