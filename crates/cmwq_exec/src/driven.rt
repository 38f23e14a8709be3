//! A machine between instructions.
ghost use Rattle.cmwq_table.specs.State.{start};
ghost use Rattle.cmwq_types.specs.Faults.{IsValid};
ghost use Rattle.std.specs.Prelude.{◌≡◌, IfOk};

use crate::performing::exec;
use crate::repeating::{again, go};
use cmwq_parts::{Going, Parts};
use cmwq_pool::Pool;
use cmwq_table::{FlushTarget, LoadError, Machine, Pending, Reads, Running, View, Went};
use cmwq_types::{Instr, NoMemory, Reply, Scenario};
use std::alloc::Global;
use std::marker::Model;
use std::sync::Arc;

/// The machine that carries out the instruction table over these parts.
///
/// Its copies share the scenario that was loaded.
#[derive(Drop)]
pub struct Driven<P: Parts> {
    going: Going<P>,
}

impl<P: Parts> Model for Driven<P> {
    ghost use Rattle.cmwq_table.specs.Ready.{IsKept, Loaded};

    ghost Value = { Loaded };

    ghost view = { λ m. m.going };

    ghost invariant = { λ m. IsKept m.going };
}

impl<P: Parts> Reads for Driven<P> {
    ghost loaded = { λ m. m.scenario };

    ghost state = { λ m. m.state };

    fn scenario(&self) -> &Scenario {
        self.going.parts.scenario()
    }

    fn time(&self) -> u64 {
        self.going.parts.time()
    }

    fn next_stamp(&self) -> u64 {
        self.going.parts.next_stamp()
    }

    fn spent(&self) -> u32 {
        self.going.parts.spent()
    }

    fn is_frozen(&self) -> bool {
        self.going.parts.is_frozen()
    }

    fn is_pressed(&self) -> bool {
        self.going.parts.is_pressed()
    }

    fn max_of(&self, queue: u8) -> u16 {
        self.going.parts.max_of(queue)
    }

    fn pending_of(&self, w: usize) -> Option<Pending> {
        self.going.parts.pending_of(w)
    }

    fn running_of(&self, w: usize) -> Option<Running> {
        self.going.parts.running_of(w)
    }

    fn depth_of(&self, w: usize) -> u16 {
        self.going.parts.depth_of(w)
    }

    fn idle_of(&self, pool: u8, worker: u8) -> Option<u64> {
        self.going.parts.idle_of(pool, worker)
    }

    fn made_of(&self, pool: u8) -> u8 {
        self.going.parts.made_of(pool)
    }

    fn flush_count(&self) -> usize {
        self.going.parts.flush_count()
    }

    fn flush_of(&self, number: usize) -> Option<FlushTarget> {
        self.going.parts.flush_of(number)
    }
}

impl<P: Parts> Machine for Driven<P> {
    fn load(alloc: Global, scenario: &Scenario) -> Result<Self, LoadError> {
        scenario.check().map_err(LoadError::Fault)?;
        Driven::of_copy(alloc, scenario).map_err(|_| LoadError::NoMemory)
    }

    #[tactic(auto, using(crate::proofs::StartLemmas::starts))]
    fn begin(alloc: Global, scenario: Arc<Scenario>) -> Result<Self, NoMemory> {
        let parts = P::begin(alloc, scenario)?;
        Ok(Driven {
            going: Going { parts },
        })
    }

    #[inline(always)]
    fn exec(&mut self, instr: Instr) -> Reply {
        exec(&mut self.going, instr)
    }

    #[inline(always)]
    fn go(&mut self, most: u32) -> (u32, Went) {
        go(&mut self.going, most)
    }

    #[inline(always)]
    fn again(&mut self, instr: Instr, reply: Reply, most: u32) -> u32 {
        again(&mut self.going, instr, reply, most)
    }

    fn copy(&self) -> Result<Self, NoMemory> {
        let parts = self.going.parts.copy()?;
        Ok(Driven {
            going: Going { parts },
        })
    }

    fn look(&self) -> Result<View, NoMemory> {
        self.going.parts.look()
    }

    fn is_settled(&self) -> bool {
        self.going.is_settled()
    }

    #[inline(always)]
    fn now(&self) -> u64 {
        self.going.parts.time()
    }
}

impl<P: Parts> Driven<P> {
    ghost use Rattle.cmwq_pool.specs.PoolContents.{pool_of};

    /// The worker pool of this number, from 0, lent for reading.
    pub fn pool(&self, number: u8) -> Pool<'_, P>
        ensures { result ≡ pool_of self.now number }
    {
        Pool::new(&self.going, number)
    }

    /// The machine's own structure, lent for reading.
    pub fn parts(&self) -> &P
        ensures scenario { P.loaded result.now ≡ self.now.scenario }
        ensures state { P.state result.now ≡ self.now.state }
    {
        &self.going.parts
    }

    /// A machine in the start state of a valid scenario, which is copied.
    fn of_copy(alloc: Global, scenario: &Scenario) -> Result<Self, NoMemory>
        requires { IsValid scenario.now }
        ensures scenario { IfOk result (λ machine. machine.scenario ≡ scenario.now) }
        ensures state { IfOk result (λ machine. machine.state ≡ start scenario.now) }
    {
        let shared = Arc::new(alloc, scenario.copy()?)?;
        Driven::begin(alloc, shared)
    }
}
