//! A picture of a run, and its rows.

use crate::cell::Cell;
use cmwq_types::{Instr, QueueId, WorkId};
use std::marker::Model;

/// Whose row it is.
#[derive(Clone, Copy, PartialEq, Eq)]
pub enum Title {
    /// A work: its run, or where it is pending if it doesn't run.
    Work(WorkId),
    /// The same work's pending instance, while it runs.
    Pending(WorkId),
    /// The CPU of this number, from 0.
    Cpu(u8),
    /// A worker of an unbound pool.
    Worker {
        /// The number of the pool.
        pool: u8,
        /// The number of the worker in that pool.
        worker: u8,
    },
    /// The rescuer of a queue, where it runs a work for an unbound pool.
    Rescuer(QueueId),
    /// Whether there is a freeze.
    Frozen,
    /// Whether there is memory pressure.
    Pressed,
    /// Who gave the instructions.
    Actor,
}

/// Something that the actor did.
#[derive(Clone, Copy, PartialEq, Eq)]
pub struct Act {
    /// When, in ticks.
    pub time: u64,
    /// What.
    pub instr: Instr,
}

/// What is to be said of a rectangle of a row, where it begins.
#[derive(Drop)]
pub struct Hint {
    /// The number of the row, from 0.
    pub row: usize,
    /// The line.
    pub text: String,
}

impl Model for Hint {
    ghost use Rattle.cmwq_picture.specs.PictureContents.{HintContents};
    ghost use Rattle.std.specs.Prelude.{string_bytes};

    ghost Value = { HintContents };

    ghost view = { λ hint. record { row = hint.row; text = string_bytes hint.text } };
}

/// One row: a cell a column.
#[derive(Drop)]
pub struct Row {
    /// Whose row it is.
    pub title: Title,
    /// What it shows, column by column.
    pub cells: Vec<Cell>,
}

impl Model for Row {
    ghost use Rattle.cmwq_picture.specs.PictureContents.{RowContents};

    ghost Value = { RowContents };

    ghost view = { λ row. record { title = row.title; cells = row.cells.items } };
}

/// The rows of a span of ticks, and what the actor did in it.
#[derive(Drop)]
pub struct Picture {
    /// The time at which each column begins, and last the time at which the last one ends, in ticks. A column stands for one tick, or
    /// for more than 20 in which nothing changes.
    pub edges: Vec<u64>,
    /// The rows, from the top.
    pub rows: Vec<Row>,
    /// What the actor did, in order.
    pub acts: Vec<Act>,
}

impl Model for Picture {
    ghost use Rattle.cmwq_picture.specs.PictureContents.{PictureContents};

    ghost Value = { PictureContents };

    ghost view = { λ picture. record {
      edges = picture.edges.items;
      rows = picture.rows.items;
      acts = picture.acts.items;
    } };
}
