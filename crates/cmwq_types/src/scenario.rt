//! A scenario: CPUs, queues, works with their bodies, and actors.

use crate::instr::{Instr, QueueId, WorkId};
use crate::name::Name;
use std::marker::Model;

/// The flags of a queue, as in the kernel's `alloc_workqueue`.
#[derive(Clone, Copy, PartialEq, Eq)]
pub struct Flags {
    /// `WQ_HIGHPRI`: its works go to the high pool of a CPU, or to the unbound high pool where the queue is
    /// unbound or ordered.
    pub highpri: bool,
    /// `WQ_UNBOUND`: its works go to an unbound pool.
    pub unbound: bool,
    /// `WQ_CPU_INTENSIVE`: its running works don't count towards the concurrency level. It means nothing
    /// for an unbound queue.
    pub cpu_intensive: bool,
    /// `WQ_FREEZABLE`: it activates nothing while the machine is frozen.
    pub freezable: bool,
    /// An ordered queue: unbound, with `max` 1 for good.
    pub ordered: bool,
    /// `WQ_MEM_RECLAIM`: it has a rescuer, which runs one of its works at a time where its pool has no worker for it.
    pub mem_reclaim: bool,
}

impl Flags {
    /// No flag is set.
    pub const PLAIN: Flags = Flags {
        highpri: false,
        unbound: false,
        cpu_intensive: false,
        freezable: false,
        ordered: false,
        mem_reclaim: false,
    };
}

/// A queue as it is declared.
#[derive(Clone, Copy, PartialEq, Eq)]
pub struct QueueDecl {
    /// No other queue has this name.
    pub name: Name,
    /// Its `max_active`, 1 to 512; 1 where it is ordered.
    pub max: u16,
    /// What else it is told to do with its works.
    pub flags: Flags,
}

/// One operation of a work's body.
#[derive(Clone, Copy, PartialEq, Eq)]
pub enum Op {
    /// Keeps the CPU for this many ticks, 1 to 1,000,000.
    Burn(u32),
    /// Sleeps for this many ticks, 1 to 1,000,000.
    Sleep(u32),
    /// Queues the work on the CPU, a number below the scenario's `cpus`. A pending work stays as it is.
    Queue(WorkId, u8),
    /// Ends the body.
    Finish,
    /// Queues the work after this many ticks, 0 to 1,000,000, on the CPU where the instance runs. A pending work stays
    /// as it is.
    Delay(WorkId, u32),
    /// The same, but a pending work is taken off first.
    Mod(WorkId, u32),
    /// Takes the work off, where it is pending.
    Cancel(WorkId),
}

/// A work as it is declared.
#[derive(Drop)]
pub struct WorkDecl {
    /// No other work has this name.
    pub name: Name,
    /// Its one queue.
    pub queue: QueueId,
    /// 1 to 64 operations, the last of them and no other `Finish`.
    pub body: Vec<Op>,
}

impl Model for WorkDecl {
    ghost use Rattle.cmwq_types.specs.Contents.{WorkContents};

    ghost Value = { WorkContents };

    ghost view = { λ work. record { name = work.name; queue = work.queue; body = work.body.items } };
}

/// An instruction that an actor gives a number of times.
#[derive(Clone, Copy, PartialEq, Eq)]
pub struct Line {
    /// The instruction.
    pub instr: Instr,
    /// How often, 1 to 65,535.
    pub times: u32,
}

/// Who gives instructions.
#[derive(Drop)]
pub struct Actor {
    /// No other actor has this name.
    pub name: Name,
    /// At most 4,096 lines.
    pub lines: Vec<Line>,
}

impl Model for Actor {
    ghost use Rattle.cmwq_types.specs.Contents.{ActorContents};

    ghost Value = { ActorContents };

    ghost view = { λ actor. record { name = actor.name; lines = actor.lines.items } };
}

/// A scenario. `check` says whether it is valid.
#[derive(Drop)]
pub struct Scenario {
    /// 1 to 16.
    pub cpus: u8,
    /// The most workers of a pool, 1 to 64.
    pub workers: u8,
    /// How many instructions are accepted and spent; 1 to 4,294,967,295.
    pub steps: u32,
    /// How many flushes can be given, 0 to 1,024.
    pub flushes: u16,
    /// At most 32.
    pub queues: Vec<QueueDecl>,
    /// At most 256.
    pub works: Vec<WorkDecl>,
    /// At most 16.
    pub actors: Vec<Actor>,
}

impl Model for Scenario {
    ghost use Rattle.cmwq_types.specs.Contents.{ScenarioContents};

    ghost Value = { ScenarioContents };

    ghost view = { λ s. record {
      cpus = s.cpus;
      workers = s.workers;
      steps = s.steps;
      flushes = s.flushes;
      queues = s.queues.items;
      works = s.works.items;
      actors = s.actors.items;
    } };
}
