//! The moves of a worker pool: which one is next, and what each does.
ghost use Rattle.cmwq_parts.specs.FoundMoves.{IsFirstMove, IsFound, if_found, move_of};
ghost use Rattle.cmwq_parts.specs.PoolSets.{has_pool};
ghost use Rattle.cmwq_table.specs.Counts.{first_due, first_listed, first_rescued, free_worker, ready_head};
ghost use Rattle.cmwq_table.specs.Moves.{advance, cancel_from_body, carry_out, come_to_end, delay_from_body, finish, first_moving, mod_from_body, moved, moved_work, next_move, onward, queue_from_body, rescued, start_first, start_move, started};
ghost use Rattle.cmwq_table.specs.Ready.{Takes};
ghost use Rattle.cmwq_table.specs.State.{is_disabled, pending_at, running_at};
ghost use Rattle.cmwq_types.specs.Scenario.{op_at, pool_count};
ghost use Rattle.cmwq_types.specs.Setting.{IsSetting};
ghost use Rattle.cmwq_types.specs.declared.limits.TheConstants.{MAX_OPS};
ghost use Rattle.cmwq_types.specs.declared.reply.Event.TheVariants as event;
ghost use Rattle.std.specs.Prelude.{◌≡◌, ◌&&◌, ◌<◌, ◌^◌, IfSome, None, Some, false, is_none, is_some, length};

use crate::going::Going;
use crate::parts::Parts;
use crate::pool_set::PoolSet;
use cmwq_table::{Happened, Running};
use cmwq_types::{Event, Mode, Op, WorkId};

/// The next move of a worker pool, as it was found.
#[derive(Clone, Copy)]
pub enum Found {
    /// The work carries out the operation that it has come to.
    Advance(WorkId),
    /// The work's sleep is over.
    Wake(WorkId),
    /// The worker of this number takes the work from the worklist.
    Start(WorkId, u8),
    /// The work's turn came while it still runs.
    Defer(WorkId),
    /// The rescuer of the work's queue takes the work from the worklist.
    Rescue(WorkId),
}

impl<P: Parts> Going<P> {
    /// The next move of the pool: advance, else wake, else start.
    #[inline(always)]
    pub fn next_move(&self, pool: u8) -> Option<Found>
        ensures next { if_found result ≡ next_move self.now.scenario self.now.state pool }
        ensures fits { IfSome result (IsFound self.now.scenario self.now.state pool) }
    {
        if let Some(w) = self.parts.ready_head(pool) {
            return Some(Found::Advance(WorkId(w as u16)));
        }
        if let Some(w) = self.parts.first_slept(pool) {
            return Some(Found::Wake(WorkId(w as u16)));
        }
        self.start_move(pool)
    }

    /// The move that takes a listed work, if the pool may start one: the first listed work, else the first
    /// that a rescuer can take.
    #[inline(always)]
    fn start_move(&self, pool: u8) -> Option<Found>
        ensures next { if_found result ≡ start_move self.now.scenario self.now.state pool }
        ensures fits { IfSome result (IsFound self.now.scenario self.now.state pool) }
    {
        if !self.parts.may_start(pool) {
            return None;
        }
        let first = self.start_first(pool);
        if first.is_some() {
            return first;
        }
        let w = self.parts.first_rescued(pool)?;
        Some(Found::Rescue(WorkId(w as u16)))
    }

    /// The move that takes the first listed work. A work that runs is deferred; any other wants a worker.
    #[inline(always)]
    fn start_first(&self, pool: u8) -> Option<Found>
        ensures next { if_found result ≡ start_first self.now.state (first_listed self.now.scenario self.now.state pool) (free_worker self.now.scenario self.now.state pool) }
        ensures fits { IfSome result (IsFound self.now.scenario self.now.state pool) }
    {
        let w = self.parts.first_listed(pool)?;
        if self.parts.running(w).is_some() {
            return Some(Found::Defer(WorkId(w as u16)));
        }
        let worker = self.parts.free_worker(pool)?;
        Some(Found::Start(WorkId(w as u16), worker))
    }

    /// The least pool that has a move, and its move. Of the pools that may have one it asks each in turn, and lets the parts know which
    /// have none.
    #[inline(always)]
    pub fn first_move(&mut self) -> Option<(u8, Found)>
        ensures same { self.new ≡ self.old }
        ensures first { IsFirstMove self.old.scenario self.old.state result }
        ensures fits { IfSome result (λ first. IsFound self.old.scenario self.old.state first.0 first.1) }
    {
        // No scenario has as many pools as a set has room for.
        let _ = self.parts.scenario();
        let mut left = self.parts.may_move();
        while let Some(pool) = left.first() {
            if let Some(next) = self.next_move(pool) {
                return Some((pool, next));
            }
            self.parts.settle(pool);
            left = left.without(pool);
        }
        None
    }

    /// Whether nothing can happen without time: no timer is due, and no pool has a move.
    pub fn is_settled(&self) -> bool
        ensures { result ≡ (is_none (first_due self.now.scenario self.now.state) && is_none (first_moving self.now.scenario self.now.state)) }
    {
        self.parts.first_due().is_none() && self.has_no_move()
    }

    /// Whether no pool has a move. Of the pools that may have one it asks each in turn.
    fn has_no_move(&self) -> bool
        ensures { result ≡ is_none (first_moving self.now.scenario self.now.state) }
    {
        // No scenario has as many pools as a set has room for.
        let _ = self.parts.scenario();
        let mut left = self.parts.may_move();
        while let Some(pool) = left.first() {
            if self.next_move(pool).is_some() {
                return false;
            }
            left = left.without(pool);
        }
        true
    }

    /// Makes the pool's move, and tells what it did.
    ///
    /// It does the same whether the move is made `ALONE` or not: where one move follows another it has one caller, and so the compiler writes it
    /// out there, however long it is.
    #[inline(always)]
    pub fn make_move<const ALONE: bool>(&mut self, pool: u8, next: Found) -> Happened
        requires fits { IsFound self.old.scenario self.old.state pool next }
        requires time { self.old.state.time < 2 ^ 60 }
        requires stamps { self.old.state.next < 2 ^ 60 }
        ensures state { self.new ≡ record self.old { state = (moved self.old.scenario self.old.state pool (move_of next)).0 } }
        ensures work { result.work ≡ moved_work (move_of next) }
        ensures event { result.event ≡ (moved self.old.scenario self.old.state pool (move_of next)).1 }
    {
        match next {
            Found::Advance(work) => {
                let event = self.advance::<ALONE>(pool, work.0 as usize);
                Happened { work, event }
            }
            Found::Wake(work) => {
                self.parts.wake(pool, work.0 as usize);
                let event = Event::Wakes;
                Happened { work, event }
            }
            Found::Start(work, worker) => {
                self.start(pool, work.0 as usize, worker);
                let event = Event::Starts;
                Happened { work, event }
            }
            Found::Defer(work) => {
                self.parts.defer(pool, work.0 as usize);
                let event = Event::Defers;
                Happened { work, event }
            }
            Found::Rescue(work) => {
                self.take_to_rescuer(pool, work.0 as usize);
                let event = Event::StartsOnRescuer;
                Happened { work, event }
            }
        }
    }

    /// The ready head of the pool carries out the operation that it has come to.
    #[inline(always)]
    #[tactic(auto, using(cmwq_table::proofs::HeadLemmas::heads))]
    fn advance<const ALONE: bool>(&mut self, pool: u8, w: usize) -> Event
        requires work { w < length self.old.scenario.works }
        requires head { ready_head self.old.scenario self.old.state pool ≡ Some w }
        requires time { self.old.state.time < 2 ^ 60 }
        requires stamps { self.old.state.next < 2 ^ 60 }
        ensures state { self.new ≡ record self.old { state = (advance self.old.scenario self.old.state w (running_at self.old.state w)).0 } }
        ensures event { result ≡ (advance self.old.scenario self.old.state w (running_at self.old.state w)).1 }
    {
        match self.parts.running(w) {
            Some(r) => {
                let (left, mode) = (0, Mode::Runnable);
                self.carry_out::<ALONE>(w, Running { left, mode, ..r })
            }
            None => Event::Finishes,
        }
    }

    /// The running work carries out the operation that it has come to.
    #[inline(always)]
    fn carry_out<const ALONE: bool>(&mut self, w: usize, r: Running) -> Event
        requires work { w < length self.old.scenario.works }
        requires running { running_at self.old.state w ≡ Some r }
        requires head { ready_head self.old.scenario self.old.state r.pool ≡ Some w }
        requires time { self.old.state.time < 2 ^ 60 }
        requires stamps { self.old.state.next < 2 ^ 60 }
        ensures state { self.new ≡ record self.old { state = (carry_out self.old.scenario self.old.state w r (op_at self.old.scenario w r.pc)).0 } }
        ensures event { result ≡ (carry_out self.old.scenario self.old.state w r (op_at self.old.scenario w r.pc)).1 }
    {
        match self.op(w, r.pc) {
            Op::Burn(ticks) => {
                self.parts.go_on(w, r, ticks);
                Event::Burns(ticks)
            }
            Op::Sleep(ticks) => {
                let until = self.parts.time() + u64::from(ticks);
                self.parts.sleep(w, r, until);
                Event::Sleeps(ticks)
            }
            Op::Queue(other, cpu) => {
                self.parts.go_on(w, r, r.left);
                self.queue_from_body(other, cpu)
            }
            Op::Finish => self.finish::<ALONE>(w, r),
            Op::Delay(other, ticks) => {
                self.go_past(w);
                let cpu = self.parts.scenario().local_cpu(r.pool);
                self.delay_from_body(other, cpu, ticks)
            }
            Op::Mod(other, ticks) => {
                self.go_past(w);
                let cpu = self.parts.scenario().local_cpu(r.pool);
                self.mod_from_body(other, cpu, ticks)
            }
            Op::Cancel(other) => {
                self.go_past(w);
                self.cancel_from_body(other)
            }
        }
    }

    /// The operation that a work that there is comes to at this place, from 0, of its body: past the end it is the finish.
    #[inline(always)]
    fn op(&self, w: usize, pc: u8) -> Op
        requires work { w < length self.now.scenario.works }
        ensures op { result ≡ op_at self.now.scenario w pc }
        ensures setting { IsSetting self.now.scenario }
    {
        let body = &self.parts.scenario().works[w].body;
        body.get(pc as usize).copied().unwrap_or(Op::Finish)
    }

    /// The ready head of its pool goes on to the next operation. It is called, and not written out at each of its calls: it stands before what
    /// bodies seldom do.
    #[inline(never)]
    fn go_past(&mut self, w: usize)
        requires work { w < length self.old.scenario.works }
        requires head { IfSome (running_at self.old.state w) (λ r. ready_head self.old.scenario self.old.state r.pool ≡ Some w) }
        requires pc { IfSome (running_at self.old.state w) (λ r. r.pc < MAX_OPS) }
        ensures { IfSome (running_at self.old.state w) (λ r. self.new ≡ record self.old { state = onward self.old.state w r }) }
    {
        if let Some(ready) = self.parts.running(w) {
            self.parts.go_on(w, ready, ready.left);
        }
    }

    /// A body queues a work, unless it is disabled.
    #[inline(always)]
    fn queue_from_body(&mut self, other: WorkId, cpu: u8) -> Event
        requires work { other.0 < length self.old.scenario.works }
        requires cpu { cpu < self.old.scenario.cpus }
        requires stamps { self.old.state.next < 2 ^ 63 }
        ensures state { self.new ≡ record self.old { state = (queue_from_body self.old.scenario self.old.state other cpu (is_disabled self.old.state other.0) (pending_at self.old.state other.0)).0 } }
        ensures event { result ≡ (queue_from_body self.old.scenario self.old.state other cpu (is_disabled self.old.state other.0) (pending_at self.old.state other.0)).1 }
    {
        if self.is_disabled(other) {
            return Event::QueuesDisabled { other };
        }
        let already = self.parts.pending(other.0 as usize).is_some();
        if !already {
            self.place(other.0 as usize, cpu);
        }
        Event::Queues { other, already }
    }

    /// A body queues a work after so many ticks, unless it is disabled. A pending work stays as it is.
    #[inline(always)]
    fn delay_from_body(&mut self, other: WorkId, cpu: u8, ticks: u32) -> Event
        requires work { other.0 < length self.old.scenario.works }
        requires cpu { cpu < self.old.scenario.cpus }
        requires time { self.old.state.time < 2 ^ 63 }
        requires stamps { self.old.state.next < 2 ^ 63 }
        ensures state { self.new ≡ record self.old { state = (delay_from_body self.old.scenario self.old.state other cpu ticks (is_disabled self.old.state other.0) (pending_at self.old.state other.0)).0 } }
        ensures event { result ≡ (delay_from_body self.old.scenario self.old.state other cpu ticks (is_disabled self.old.state other.0) (pending_at self.old.state other.0)).1 }
    {
        if self.is_disabled(other) {
            return Event::DelaysDisabled { other, ticks };
        }
        let already = self.delay_unless_pending(other, cpu, ticks);
        Event::Delays {
            other,
            ticks,
            already,
        }
    }

    /// Queues a work that isn't disabled after so many ticks, unless it is pending. Answers whether it is. It is called, and not written out at its
    /// call, as bodies seldom do it.
    #[inline(never)]
    fn delay_unless_pending(&mut self, other: WorkId, cpu: u8, ticks: u32) -> bool
        requires work { other.0 < length self.old.scenario.works }
        requires cpu { cpu < self.old.scenario.cpus }
        requires time { self.old.state.time < 2 ^ 63 }
        requires stamps { self.old.state.next < 2 ^ 63 }
        ensures state { self.new ≡ record self.old { state = (delay_from_body self.old.scenario self.old.state other cpu ticks false (pending_at self.old.state other.0)).0 } }
        ensures event { event.Delays other ticks result ≡ (delay_from_body self.old.scenario self.old.state other cpu ticks false (pending_at self.old.state other.0)).1 }
    {
        let already = self.parts.pending(other.0 as usize).is_some();
        if !already {
            self.place_after(other.0 as usize, cpu, ticks);
        }
        already
    }

    /// A body queues a work anew after so many ticks, unless it is disabled. A pending work is taken off first.
    #[inline(always)]
    fn mod_from_body(&mut self, other: WorkId, cpu: u8, ticks: u32) -> Event
        requires work { other.0 < length self.old.scenario.works }
        requires cpu { cpu < self.old.scenario.cpus }
        requires time { self.old.state.time < 2 ^ 63 }
        requires stamps { self.old.state.next < 2 ^ 62 }
        ensures state { self.new ≡ record self.old { state = (mod_from_body self.old.scenario self.old.state other cpu ticks (is_disabled self.old.state other.0) (pending_at self.old.state other.0)).0 } }
        ensures event { result ≡ (mod_from_body self.old.scenario self.old.state other cpu ticks (is_disabled self.old.state other.0) (pending_at self.old.state other.0)).1 }
    {
        if self.is_disabled(other) {
            return Event::ModsDisabled { other, ticks };
        }
        let changed = self.place_anew(other, cpu, ticks);
        Event::Mods {
            other,
            ticks,
            changed,
        }
    }

    /// Takes a work that isn't disabled off, if it is pending, and places it after so many ticks. Answers whether it was pending. It is called, and
    /// not written out at its call, as bodies seldom do it.
    #[inline(never)]
    fn place_anew(&mut self, other: WorkId, cpu: u8, ticks: u32) -> bool
        requires work { other.0 < length self.old.scenario.works }
        requires cpu { cpu < self.old.scenario.cpus }
        requires time { self.old.state.time < 2 ^ 63 }
        requires stamps { self.old.state.next < 2 ^ 62 }
        ensures state { self.new ≡ record self.old { state = (mod_from_body self.old.scenario self.old.state other cpu ticks false (pending_at self.old.state other.0)).0 } }
        ensures was { result ≡ is_some (pending_at self.old.state other.0) }
    {
        let w = other.0 as usize;
        match self.parts.pending(w) {
            Some(p) => {
                self.replace(w, p, cpu, ticks);
                true
            }
            None => {
                self.place_after(w, cpu, ticks);
                false
            }
        }
    }

    /// A body takes a work off, if it is pending.
    #[inline(always)]
    fn cancel_from_body(&mut self, other: WorkId) -> Event
        requires work { other.0 < length self.old.scenario.works }
        requires stamps { self.old.state.next < 2 ^ 62 }
        ensures state { self.new ≡ record self.old { state = (cancel_from_body self.old.scenario self.old.state other (pending_at self.old.state other.0)).0 } }
        ensures event { result ≡ (cancel_from_body self.old.scenario self.old.state other (pending_at self.old.state other.0)).1 }
    {
        let was = self.take_off_pending(other);
        Event::Cancels { other, was }
    }

    /// Takes a work off, if it is pending. Answers whether it was. It is called, and not written out at its call, as bodies seldom do it.
    #[inline(never)]
    fn take_off_pending(&mut self, other: WorkId) -> bool
        requires work { other.0 < length self.old.scenario.works }
        requires stamps { self.old.state.next < 2 ^ 62 }
        ensures state { self.new ≡ record self.old { state = (cancel_from_body self.old.scenario self.old.state other (pending_at self.old.state other.0)).0 } }
        ensures was { result ≡ is_some (pending_at self.old.state other.0) }
    {
        let was = self.parts.pending(other.0 as usize).is_some();
        self.take_off(other.0 as usize);
        was
    }

    /// The running work comes to the end of its body, and what it leaves is filled.
    #[inline(always)]
    fn finish<const ALONE: bool>(&mut self, w: usize, r: Running) -> Event
        requires work { w < length self.old.scenario.works }
        requires running { running_at self.old.state w ≡ Some r }
        requires head { ready_head self.old.scenario self.old.state r.pool ≡ Some w }
        requires stamps { self.old.state.next < 2 ^ 61 }
        ensures state { self.new ≡ record self.old { state = (finish self.old.scenario self.old.state w r).0 } }
        ensures event { result ≡ (finish self.old.scenario self.old.state w r).1 }
    {
        let queue = self.queue(w);
        let event = self.come_to_end(w, r);
        self.fill(queue, r.pool);
        event
    }

    /// A deferred instance starts at once on the same worker, else the worker becomes idle, or the rescuer
    /// free.
    #[tactic(auto, using(cmwq_table::proofs::CounterLemmas::takes))]
    #[inline(always)]
    fn come_to_end(&mut self, w: usize, r: Running) -> Event
        requires work { w < length self.old.scenario.works }
        requires running { running_at self.old.state w ≡ Some r }
        requires head { ready_head self.old.scenario self.old.state r.pool ≡ Some w }
        requires stamps { self.old.state.next < 2 ^ 61 }
        ensures state { self.new ≡ record self.old { state = (come_to_end self.old.state w r (pending_at self.old.state w)).0 } }
        ensures event { result ≡ (come_to_end self.old.state w r (pending_at self.old.state w)).1 }
        ensures takes { Takes 1 self.old.state self.new.state }
    {
        match self.parts.pending(w) {
            Some(p) if p.place.is_deferred() => {
                self.parts.begin_again(w, r, p);
                Event::FinishesAndStarts
            }
            _ => {
                self.parts.retire(w, r);
                Event::Finishes
            }
        }
    }

    /// The free worker of the pool takes its first listed work.
    #[inline(always)]
    fn start(&mut self, pool: u8, w: usize, worker: u8)
        requires work { w < length self.old.scenario.works }
        requires worker { worker < self.old.scenario.workers }
        requires free { free_worker self.old.scenario self.old.state pool ≡ Some worker }
        requires first { first_listed self.old.scenario self.old.state pool ≡ Some w }
        requires still { running_at self.old.state w ≡ None }
        requires stamps { self.old.state.next < 2 ^ 63 }
        ensures { self.new ≡ record self.old { state = started self.old.state pool w (free_worker self.old.scenario self.old.state pool) (pending_at self.old.state w) } }
    {
        if let Some(p) = self.parts.pending(w) {
            self.parts.start_on(pool, w, worker, p);
        }
    }

    /// The rescuer of the work's queue takes the work, the first of the pool that one can take.
    fn take_to_rescuer(&mut self, pool: u8, w: usize)
        requires work { w < length self.old.scenario.works }
        requires first { first_rescued self.old.scenario self.old.state pool ≡ Some w }
        requires stamps { self.old.state.next < 2 ^ 63 }
        ensures { self.new ≡ record self.old { state = rescued self.old.state pool w (pending_at self.old.state w) } }
    {
        if let Some(p) = self.parts.pending(w) {
            self.parts.rescue(pool, w, p);
        }
    }
}
