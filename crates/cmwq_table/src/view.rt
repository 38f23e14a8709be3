//! The whole state of a machine, to look at.

use crate::state::{FlushTarget, Pending, Running};
use cmwq_types::WorkId;
use std::marker::Model;

/// A worker that is idle.
#[derive(Clone, Copy, PartialEq, Eq)]
pub struct IdleWorker {
    /// Its pool.
    pub pool: u8,
    /// Its number in that pool.
    pub worker: u8,
    /// The stamp of its becoming idle: the greatest in a pool is taken first.
    pub stamp: u64,
}

/// Every part of a machine's state.
#[derive(Drop)]
pub struct View {
    /// The time, in ticks.
    pub time: u64,
    /// The next stamp.
    pub next: u64,
    /// How many instructions were accepted and spent.
    pub spent: u32,
    /// Whether the machine is frozen.
    pub frozen: bool,
    /// Whether memory is short.
    pub pressed: bool,
    /// The `max_active` of each queue, by its number.
    pub max: Vec<u16>,
    /// The pending works, by rising number.
    pub pending: Vec<(WorkId, Pending)>,
    /// The running works, by rising number.
    pub running: Vec<(WorkId, Running)>,
    /// How much more often each work was disabled than enabled, by its number.
    pub depth: Vec<u16>,
    /// The idle workers, by pool and worker.
    pub idle: Vec<IdleWorker>,
    /// How many workers each pool has made, by its number.
    pub made: Vec<u8>,
    /// What the flushes given so far wait for, in order.
    pub flushes: Vec<FlushTarget>,
}

impl Model for View {
    ghost use Rattle.cmwq_table.specs.View.{ViewContents};

    ghost Value = { ViewContents };

    ghost view = { λ v. record {
      time = v.time;
      next = v.next;
      spent = v.spent;
      frozen = v.frozen;
      pressed = v.pressed;
      max = v.max.items;
      pending = v.pending.items;
      running = v.running.items;
      depth = v.depth.items;
      idle = v.idle.items;
      made = v.made.items;
      flushes = v.flushes.items;
    } };
}
