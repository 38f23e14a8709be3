//! One worker pool of a machine.
ghost use Rattle.cmwq_parts.specs.FoundMoves.{move_of};
ghost use Rattle.cmwq_pool.specs.PoolContents.{pending_in, pool_of, running_in};
ghost use Rattle.cmwq_table.specs.Counts.{counted};
ghost use Rattle.cmwq_table.specs.Moves.{next_move};
ghost use Rattle.cmwq_table.specs.State.{idle_at, made_at, pending_at, running_at};
ghost use Rattle.std.specs.Prelude.{◌≡◌};

use cmwq_parts::{Found, Going, Parts};
use cmwq_table::{Pending, Reads, Running};
use cmwq_types::{Move, Place};
use std::marker::Model;

/// A worker pool of a machine, lent for reading. Contracts see the machine's scenario and state, and the pool's number.
#[derive(Drop)]
pub struct Pool<'a, P: Parts> {
    machine: &'a Going<P>,
    number: u8,
}

impl<'a, P: Parts> Model for Pool<'a, P> {
    ghost use Rattle.cmwq_pool.specs.PoolContents.{PoolContents, pool_of};

    ghost Value = { PoolContents };

    ghost view = { λ p. pool_of p.machine.now p.number };
}

impl<'a, P: Parts> Pool<'a, P> {
    /// The pool of this number, from 0. Where the machine has no such pool, nothing waits or runs in it.
    pub fn new(machine: &'a Going<P>, number: u8) -> Pool<'a, P>
        ensures { result ≡ pool_of machine.now number }
    {
        Pool { machine, number }
    }

    /// The pending instance of the work, if it is listed or deferred in the pool.
    pub fn pend(&self, w: usize) -> Option<Pending>
        ensures { result ≡ pending_in self.now.number (pending_at self.now.state w) }
    {
        let machine = self.machine;
        let pending = machine.parts.pending_of(w)?;
        match pending.place {
            Place::Listed(pool) | Place::Deferred(pool) if pool == self.number => Some(pending),
            _ => None,
        }
    }

    /// The running instance of the work, if it runs in the pool.
    pub fn run(&self, w: usize) -> Option<Running>
        ensures { result ≡ running_in self.now.number (running_at self.now.state w) }
    {
        let machine = self.machine;
        let running = machine.parts.running_of(w)?;
        if running.pool == self.number {
            Some(running)
        } else {
            None
        }
    }

    /// The stamp from which on the pool's worker of this number is idle, if it is.
    pub fn idle(&self, worker: u8) -> Option<u64>
        ensures { result ≡ idle_at self.now.state self.now.number worker }
    {
        let machine = self.machine;
        machine.parts.idle_of(self.number, worker)
    }

    /// How many workers the pool has made.
    pub fn made(&self) -> u8
        ensures { result ≡ made_at self.now.state self.now.number }
    {
        let machine = self.machine;
        machine.parts.made_of(self.number)
    }

    /// The pool's concurrency level: how many of its runnable works count towards it, and 0 where it is unbound.
    pub fn counted(&self) -> usize
        ensures { result ≡ counted self.now.scenario self.now.state self.now.number }
    {
        let machine = self.machine;
        cmwq_reads::level(&machine.parts, self.number)
    }

    /// The pool's next move, if it has one.
    pub fn next_move(&self) -> Option<Move>
        ensures { result ≡ next_move self.now.scenario self.now.state self.now.number }
    {
        let found = self.machine.next_move(self.number)?;
        Some(move_of(found))
    }
}

/// The move that was found, without its worker.
fn move_of(found: Found) -> Move
    ensures { result ≡ move_of found }
{
    match found {
        Found::Advance(work) => Move::Advance(work),
        Found::Wake(work) => Move::Wake(work),
        Found::Start(work, _worker) => Move::Start(work),
        Found::Defer(work) => Move::Defer(work),
        Found::Rescue(work) => Move::Rescue(work),
    }
}
