//! Placing works in worker pools, and filling what has room.
ghost use Rattle.cmwq_table.specs.Moves.{fill, fill_from, fill_one, fill_times, fire, place, place_after, pool_for, take_off, taken_off};
ghost use Rattle.cmwq_table.specs.Ready.{Takes};
ghost use Rattle.cmwq_table.specs.State.{is_disabled, pending_at};
ghost use Rattle.cmwq_types.specs.Scenario.{queue_of};
ghost use Rattle.cmwq_types.specs.Setting.{IsSetting};
ghost use Rattle.cmwq_types.specs.declared.limits.TheConstants.{MAX_WORKS};
ghost use Rattle.std.specs.Prelude.{◌≡◌, ◌<◌, ◌≤◌, ◌+◌, ◌-◌, ◌^◌, IsFalse, IsTrue, None, Some, length};

use crate::going::Going;
use crate::parts::Parts;
use cmwq_table::Pending;
use cmwq_types::{Place, WorkId};

impl<P: Parts> Going<P> {
    /// Whether the work was disabled more often than enabled.
    #[inline(always)]
    pub fn is_disabled(&self, w: WorkId) -> bool
        requires work { w.0 < length self.now.scenario.works }
        ensures { result ≡ is_disabled self.now.state w.0 }
    {
        self.parts.depth(w.0 as usize) != 0
    }

    /// The number of the queue of a work that there is.
    #[inline(always)]
    pub(crate) fn queue(&self, w: usize) -> u8
        requires work { w < length self.now.scenario.works }
        ensures { result ≡ queue_of self.now.scenario w }
    {
        self.parts.scenario().works[w].queue.0
    }

    /// The pool in which the work is placed: where it runs, else its target pool.
    #[inline(always)]
    fn pool_for(&self, w: usize, cpu: u8) -> u8
        requires work { w < length self.now.scenario.works }
        requires cpu { cpu < self.now.scenario.cpus }
        ensures { result ≡ pool_for self.now.scenario self.now.state w cpu }
    {
        match self.parts.running(w) {
            Some(r) => r.pool,
            None => self.parts.scenario().target_of(self.queue(w), cpu),
        }
    }

    /// Places the work: it is listed if its queue has room in the pool, else inactive.
    #[inline(always)]
    pub fn place(&mut self, w: usize, cpu: u8)
        requires work { w < length self.old.scenario.works }
        requires cpu { cpu < self.old.scenario.cpus }
        requires idle { pending_at self.old.state w ≡ None }
        requires stamps { self.old.state.next < 2 ^ 63 }
        ensures { self.new ≡ record self.old { state = place self.old.scenario self.old.state w cpu } }
    {
        let pool = self.pool_for(w, cpu);
        let queue = self.queue(w);
        if self.parts.has_room(queue, pool) {
            self.parts.bear(w, Place::Listed(pool));
        } else {
            self.parts.bear(w, Place::Inactive(pool));
        }
    }

    /// Places the work after so many ticks, at once after none.
    pub fn place_after(&mut self, w: usize, cpu: u8, ticks: u32)
        requires work { w < length self.old.scenario.works }
        requires cpu { cpu < self.old.scenario.cpus }
        requires idle { pending_at self.old.state w ≡ None }
        requires time { self.old.state.time < 2 ^ 63 }
        requires stamps { self.old.state.next < 2 ^ 63 }
        ensures { self.new ≡ record self.old { state = place_after self.old.scenario self.old.state w cpu ticks } }
    {
        if ticks == 0 {
            self.place(w, cpu);
        } else {
            let due = self.parts.time() + u64::from(ticks);
            self.parts.bear(w, Place::Timer { due, cpu });
        }
    }

    /// Lists the queue's first inactive work in the pool, if there is room. Answers whether there was one.
    #[tactic(auto, using(cmwq_table::proofs::CounterLemmas::takes))]
    #[inline(always)]
    fn fill_one(&mut self, queue: u8, pool: u8) -> bool
        requires { self.old.state.next < 2 ^ 63 }
        ensures filled { self.new ≡ record self.old { state = fill_one self.old.scenario queue pool self.old.state } }
        ensures stamps { self.new.state.next ≤ self.old.state.next + 1 }
        ensures works { IsTrue result → 0 < length self.old.scenario.works }
        ensures unchanged { IsFalse result → self.new ≡ self.old }
    {
        match self.parts.first_inactive(queue, pool) {
            Some(w) if self.parts.has_room(queue, pool) => {
                self.parts.enlist(queue, pool, w);
                true
            }
            _ => false,
        }
    }

    /// How many works there are.
    fn work_count(&self) -> usize
        ensures count { result ≡ length self.now.scenario.works }
        ensures setting { IsSetting self.now.scenario }
    {
        self.parts.scenario().works.len()
    }

    /// While the queue has room in the pool, lists its first inactive work there. Mostly there is none, or one.
    #[inline(always)]
    pub fn fill(&mut self, queue: u8, pool: u8)
        requires { self.old.state.next < 2 ^ 62 }
        ensures filled { self.new ≡ record self.old { state = fill self.old.scenario queue pool self.old.state } }
        ensures takes { Takes MAX_WORKS self.old.state self.new.state }
    {
        // No more works are listed than there are.
        let _ = self.work_count();
        if self.fill_one(queue, pool) {
            self.fill_more(queue, pool);
        }
    }

    /// Does so where one was listed already.
    #[inline(never)]
    fn fill_more(&mut self, queue: u8, pool: u8)
        requires { self.old.state.next ≤ 2 ^ 62 }
        ensures { self.new ≡ record self.old { state = fill_times self.old.scenario queue pool (length self.old.scenario.works - 1) self.old.state } }
    {
        for _turn in 1..self.work_count() {
            if !self.fill_one(queue, pool) {
                break;
            }
        }
    }

    /// Fills what a pending work left: nothing where it had a timer.
    fn fill_from(&mut self, queue: u8, place: Place)
        requires { self.old.state.next < 2 ^ 62 }
        ensures filled { self.new ≡ record self.old { state = fill_from self.old.scenario queue place self.old.state } }
        ensures takes { Takes MAX_WORKS self.old.state self.new.state }
    {
        match place {
            Place::Timer { .. } => {}
            Place::Inactive(pool) | Place::Listed(pool) | Place::Deferred(pool) => {
                self.fill(queue, pool);
            }
        }
    }

    /// Takes the work off, if it is pending, and fills what it leaves.
    #[tactic(auto, using(cmwq_table::proofs::IdleLemmas::unpended))]
    pub fn take_off(&mut self, w: usize)
        requires work { w < length self.old.scenario.works }
        requires stamps { self.old.state.next < 2 ^ 62 }
        ensures taken { self.new ≡ record self.old { state = take_off self.old.scenario self.old.state w } }
        ensures takes { Takes MAX_WORKS self.old.state self.new.state }
        ensures idle { pending_at self.new.state w ≡ None }
    {
        if let Some(p) = self.parts.pending(w) {
            let queue = self.queue(w);
            self.parts.unpend(w, p);
            self.fill_from(queue, p.place);
        }
    }

    /// Takes the pending work off, and places it after so many ticks, at once after none.
    pub fn replace(&mut self, w: usize, p: Pending, cpu: u8, ticks: u32)
        requires work { w < length self.old.scenario.works }
        requires pending { pending_at self.old.state w ≡ Some p }
        requires cpu { cpu < self.old.scenario.cpus }
        requires time { self.old.state.time < 2 ^ 63 }
        requires stamps { self.old.state.next < 2 ^ 62 }
        ensures { self.new ≡ record self.old { state = place_after self.old.scenario (taken_off self.old.scenario self.old.state w (Some p)) w cpu ticks } }
    {
        if ticks != 0 && !p.place.is_placed() {
            let due = self.parts.time() + u64::from(ticks);
            self.parts.set_timer(w, p, due, cpu);
        } else {
            self.take_off(w);
            self.place_after(w, cpu, ticks);
        }
    }

    /// Fires the work's timer, if it has one: the work is placed on the timer's CPU.
    #[tactic(auto, using(cmwq_table::proofs::IdleLemmas::unpended))]
    pub fn fire(&mut self, w: usize)
        requires work { w < length self.old.scenario.works }
        requires stamps { self.old.state.next < 2 ^ 63 }
        ensures { self.new ≡ record self.old { state = fire self.old.scenario self.old.state w } }
    {
        let Some(p) = self.parts.pending(w) else {
            return;
        };
        if let Place::Timer { cpu, .. } = p.place {
            self.parts.unpend(w, p);
            self.place(w, cpu);
        }
    }
}
