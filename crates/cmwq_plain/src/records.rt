//! The state as vectors that are scanned, read and written by number.
ghost use Rattle.cmwq_table.specs.Moves.{begun};
ghost use Rattle.cmwq_table.specs.State.{seat};
ghost use Rattle.std.specs.Prelude.{◌≡◌, slice_set};

use cmwq_parts::{Parts, PoolSet};
use cmwq_reads::{copied_flushes, declared_max, entries, idle_workers};
use cmwq_table::{FlushTarget, Pending, Reads, Running, View};
use cmwq_types::{MAX_WORKERS, Mode, NoMemory, Place, RESCUER, Scenario, filled};
use std::alloc::Global;
use std::marker::Model;
use std::sync::Arc;

/// A loaded scenario and the whole state of the instruction table, as vectors. There is one entry for each
/// queue, work, pool and worker of a pool, by its number from 0, and a vector keeps its length; the flushes
/// alone grow, up to the room that was taken for them.
///
/// It is slow on purpose, the yardstick for every other structure.
#[derive(Drop)]
pub struct Records {
    pub(crate) scenario: Arc<Scenario>,
    time: u64,
    next: u64,
    spent: u32,
    frozen: bool,
    pressed: bool,
    max: Vec<u16>,
    pub(crate) pending: Vec<Option<Pending>>,
    pub(crate) running: Vec<Option<Running>>,
    depth: Vec<u16>,
    idle: Vec<Option<u64>>,
    made: Vec<u8>,
    flushes: Vec<FlushTarget>,
}

impl Model for Records {
    ghost use Rattle.cmwq_plain.specs.RecordLayout.{IsLaidOut};
    ghost use Rattle.cmwq_table.specs.Ready.{Loaded};
    ghost use Rattle.std.specs.Prelude.{vec_capacity};

    ghost Value = { Loaded };

    ghost view = { λ r. record {
      scenario = r.scenario.value;
      state = record {
        time = r.time;
        next = r.next;
        spent = r.spent;
        frozen = r.frozen;
        pressed = r.pressed;
        max = r.max.items;
        pending = r.pending.items;
        running = r.running.items;
        depth = r.depth.items;
        idle = r.idle.items;
        made = r.made.items;
        flushes = r.flushes.items;
      };
    } };

    ghost invariant = { λ r. IsLaidOut r.scenario.value r.max.items r.pending.items r.running.items r.depth.items r.idle.items r.made.items (vec_capacity r.flushes) };
}

impl Reads for Records {
    ghost loaded = { λ r. r.scenario };

    ghost state = { λ r. r.state };

    fn scenario(&self) -> &Scenario {
        &self.scenario
    }

    fn time(&self) -> u64 {
        self.time
    }

    fn next_stamp(&self) -> u64 {
        self.next
    }

    fn spent(&self) -> u32 {
        self.spent
    }

    fn is_frozen(&self) -> bool {
        self.frozen
    }

    fn is_pressed(&self) -> bool {
        self.pressed
    }

    fn max_of(&self, queue: u8) -> u16 {
        self.max.get(queue as usize).copied().unwrap_or(0)
    }

    fn pending_of(&self, w: usize) -> Option<Pending> {
        self.pending.get(w).copied().unwrap_or(None)
    }

    fn running_of(&self, w: usize) -> Option<Running> {
        self.running.get(w).copied().unwrap_or(None)
    }

    fn depth_of(&self, w: usize) -> u16 {
        self.depth.get(w).copied().unwrap_or(0)
    }

    fn idle_of(&self, pool: u8, worker: u8) -> Option<u64> {
        self.idle.get(seat(pool, worker)).copied().unwrap_or(None)
    }

    fn made_of(&self, pool: u8) -> u8 {
        self.made.get(pool as usize).copied().unwrap_or(0)
    }

    fn flush_count(&self) -> usize {
        self.flushes.len()
    }

    fn flush_of(&self, number: usize) -> Option<FlushTarget> {
        self.flushes.get(number).copied()
    }
}

#[tactic(auto, using(crate::proofs::TimerLemmas::keeps_timers))]
impl Parts for Records {
    fn begin(alloc: Global, scenario: Arc<Scenario>) -> Result<Self, NoMemory> {
        let works = scenario.works.len();
        let pools = scenario.pool_count() as usize;
        Ok(Records {
            time: 0,
            next: 0,
            spent: 0,
            frozen: false,
            pressed: false,
            max: declared_max(alloc, &scenario.queues)?,
            pending: filled(alloc, None, works)?,
            running: filled(alloc, None, works)?,
            depth: filled(alloc, 0, works)?,
            idle: filled(alloc, None, MAX_WORKERS as usize * pools)?,
            made: filled(alloc, 0, pools)?,
            flushes: Vec::with_capacity(alloc, scenario.flushes as usize)?,
            scenario,
        })
    }

    fn copy(&self) -> Result<Self, NoMemory> {
        let alloc = *self.max.allocator();
        Ok(Records {
            scenario: Arc::clone(&self.scenario)?,
            time: self.time,
            next: self.next,
            spent: self.spent,
            frozen: self.frozen,
            pressed: self.pressed,
            max: Vec::from_slice(alloc, &self.max)?,
            pending: Vec::from_slice(alloc, &self.pending)?,
            running: Vec::from_slice(alloc, &self.running)?,
            depth: Vec::from_slice(alloc, &self.depth)?,
            idle: Vec::from_slice(alloc, &self.idle)?,
            made: Vec::from_slice(alloc, &self.made)?,
            flushes: copied_flushes(alloc, &self.flushes, self.scenario.flushes as usize)?,
        })
    }

    fn look(&self) -> Result<View, NoMemory> {
        let alloc = *self.max.allocator();
        Ok(View {
            time: self.time,
            next: self.next,
            spent: self.spent,
            frozen: self.frozen,
            pressed: self.pressed,
            max: Vec::from_slice(alloc, &self.max)?,
            pending: entries(alloc, &self.pending)?,
            running: entries(alloc, &self.running)?,
            depth: Vec::from_slice(alloc, &self.depth)?,
            idle: idle_workers(alloc, &self.idle)?,
            made: Vec::from_slice(alloc, &self.made)?,
            flushes: Vec::from_slice(alloc, &self.flushes)?,
        })
    }

    fn may_move(&self) -> PoolSet {
        if self.is_at_rest() {
            PoolSet::none()
        } else {
            PoolSet::below(self.scenario.pool_count())
        }
    }

    fn bear(&mut self, w: usize, place: Place) {
        let stamp = self.take_stamp();
        self.pending[w] = Some(Pending {
            born: stamp,
            stamp,
            place,
        });
    }

    fn unpend(&mut self, w: usize, _p: Pending) {
        self.pending[w] = None;
    }

    fn enlist(&mut self, _queue: u8, pool: u8, w: usize) {
        let stamp = self.take_stamp();
        let place = Place::Listed(pool);
        self.pending[w] = self.pending[w].map(|p| Pending { stamp, place, ..p });
    }

    fn defer(&mut self, pool: u8, w: usize) {
        let place = Place::Deferred(pool);
        self.pending[w] = self.pending[w].map(|p| Pending { place, ..p });
    }

    fn start_on(&mut self, pool: u8, w: usize, worker: u8, p: Pending) {
        let made = self.made_of(pool);
        let stamp = self.take_stamp();
        self.pending[w] = None;
        self.running[w] = Some(begun(p.born, pool, worker, stamp));
        set(&mut self.idle, seat(pool, worker), None);
        let most = if worker == made { worker + 1 } else { made };
        set(&mut self.made, pool as usize, most);
    }

    fn rescue(&mut self, pool: u8, w: usize, p: Pending) {
        let stamp = self.take_stamp();
        self.pending[w] = None;
        self.running[w] = Some(begun(p.born, pool, RESCUER, stamp));
    }

    fn go_on(&mut self, w: usize, r: Running, left: u32) {
        let pc = r.pc + 1;
        self.running[w] = Some(Running { pc, left, ..r });
    }

    fn sleep(&mut self, w: usize, r: Running, until: u64) {
        let pc = r.pc + 1;
        let mode = Mode::Asleep(until);
        self.running[w] = Some(Running { pc, mode, ..r });
    }

    fn wake(&mut self, _pool: u8, w: usize) {
        if let Some(r) = self.running_of(w) {
            let stamp = self.take_stamp();
            let mode = Mode::Runnable;
            self.running[w] = Some(Running { mode, stamp, ..r });
        }
    }

    fn begin_again(&mut self, w: usize, r: Running, p: Pending) {
        let stamp = self.take_stamp();
        self.pending[w] = None;
        self.running[w] = Some(begun(p.born, r.pool, r.worker, stamp));
    }

    fn retire(&mut self, w: usize, r: Running) {
        self.running[w] = None;
        if r.worker == RESCUER {
            return;
        }
        let stamp = self.take_stamp();
        set(&mut self.idle, seat(r.pool, r.worker), Some(stamp));
    }

    fn pass(&mut self, most: u32) -> u32 {
        if self.is_at_rest() {
            self.time += u64::from(most);
            return most;
        }
        self.burn_all();
        self.time += 1;
        1
    }

    fn set_depth(&mut self, w: usize, depth: u16) {
        self.depth[w] = depth;
    }

    fn set_max(&mut self, queue: u8, max: u16) {
        self.max[queue as usize] = max;
    }

    fn set_frozen(&mut self, frozen: bool) {
        self.frozen = frozen;
    }

    fn set_pressed(&mut self, pressed: bool) {
        self.pressed = pressed;
    }

    fn push_flush(&mut self, target: FlushTarget) {
        self.flushes.push(target).unwrap();
    }

    fn spend(&mut self, count: u32) {
        self.spent += count;
    }

    fn skip_stamps(&mut self, count: u32) {
        self.next += u64::from(count);
    }
}

impl Records {
    ghost use Rattle.cmwq_table.specs.Moves.{taking};
    ghost use Rattle.std.specs.Prelude.{◌≡◌, ◌<◌, ◌^◌};

    /// The next stamp, which is taken: the one after it is next.
    fn take_stamp(&mut self) -> u64
        requires { self.old.state.next < 2 ^ 63 }
        ensures stamp { result ≡ self.old.state.next }
        ensures taken { self.new ≡ record self.old { state = taking self.old.state } }
    {
        let stamp = self.next;
        self.next += 1;
        stamp
    }
}

/// The number of a worker of a pool among all workers.
fn seat(pool: u8, worker: u8) -> usize
    ensures { result ≡ seat pool worker }
{
    MAX_WORKERS as usize * pool as usize + worker as usize
}

/// Writes the value at the place, if there is such a place.
#[tactic(auto, using(std::proofs::lemmas::List::set_past))]
fn set<T: Copy>(values: &mut [T], place: usize, value: T)
    ensures { values.new ≡ slice_set values.old place value }
{
    if place < values.len() {
        values[place] = value;
    }
}

/// An instance born then, at the beginning of its body.
fn begun(born: u64, pool: u8, worker: u8, stamp: u64) -> Running
    ensures { result ≡ begun born pool worker stamp }
{
    Running {
        born,
        pool,
        worker,
        pc: 0,
        left: 0,
        mode: Mode::Runnable,
        stamp,
    }
}
