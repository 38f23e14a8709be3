//! All actors of a scenario at once.
ghost use Rattle.std.specs.Prelude.{◌≡◌, ◌<◌, ◌≤◌, IfOk, length, ℕ};
ghost use Rattle.cmwq_types.specs.Faults.{IsValid};
ghost use Rattle.cmwq_types.specs.declared.limits.TheConstants.{MAX_HISTORY};
ghost use Rattle.cmwq_lock.specs.Rule.{opening_view};
ghost use Rattle.cmwq_lock.specs.Tokens.{opener_view};
ghost use Rattle.cmwq_engine.specs.Engine.{IsSound};
ghost use Rattle.cmwq_engine.specs.Shared.{IsOpenerOf, setting_of};
ghost use Rattle.cmwq_actors.specs.Ending.{AllHaveEnded, EachHasEnded, ending_of};
ghost use Rattle.cmwq_actors.specs.Interleaving.{issued_by, scripts_of};
ghost use Rattle.cmwq_actors.specs.Playing.{HasPassedEach};

use crate::ending::{Ending, any_exhausted, any_full};
use crate::gate::Gate;
use crate::part::ActorStage;
use crate::threads::room_for;
use cmwq_engine::{Engine, Shared};
use cmwq_lock::Kept;
use cmwq_table::Machine;
use cmwq_types::{NoMemory, Scenario};
use std::alloc::Global;
use std::sync::{Arc, OnceLock, Wait};
use std::thread::Threads;
use std::time::Clock;

/// The machine with the history that the actors have left, and how they ended.
#[derive(Drop)]
pub struct Enactment<M: Machine>
where
    Engine<M>: Kept,
{
    /// The machine with its history. Actor `a` is caller `a`.
    pub engine: Engine<M>,
    /// How each actor ended, in the actors' order.
    pub endings: Vec<Ending>,
}

impl<M: Machine> Enactment<M> {
    /// How all ended: `Exhausted` where an actor has found no ticket left, else `Full` where one has found the history full,
    /// else `Done`.
    pub fn ending(&self) -> Ending
        ensures { result ≡ ending_of self.now.endings.items }
    {
        let endings = self.endings.as_slice();
        if any_exhausted(endings) {
            return Ending::Exhausted;
        }
        if any_full(endings) {
            return Ending::Full;
        }
        Ending::Done
    }
}

/// Carries out all actors of a scenario at once, each in a thread of its own, on one machine with room for so many entries.
/// Actor `a` is caller `a`. Each issues its lines in order, each as often as it stands, up to the first for which it finds the
/// history full, or no ticket left; before each it passes the gate, under its number and the call's. None begins before all
/// threads were started.
///
/// `NoMemory` where memory ran out, or a thread couldn't be started; then nothing was issued that anyone has, and all threads
/// that were started have ended.
pub fn enact<'x, R: Threads + Wait + Clock + Sync, M: Machine + Send, G: Gate>(
    rt: &'x R,
    alloc: Global,
    scenario: &Arc<Scenario>,
    capacity: u32,
    gate: &'x G,
) -> Result<Enactment<M>, NoMemory>
    requires valid { IsValid scenario.now.value }
    requires few { capacity ≤ MAX_HISTORY }
    ensures setting { IfOk result
        (λ r. r.engine.setting ≡ record { scenario = scenario.now.value; capacity = capacity }) }
    ensures sound { IfOk result (λ r. IsSound r.engine) }
    ensures each { IfOk result
        (λ r. EachHasEnded (scripts_of scenario.now.value) capacity r.engine.history r.endings.items) }
    ensures gate { IfOk result (λ r. (actor : ℕ) → actor < length scenario.now.value.actors
        → HasPassedEach (G.has_passed gate.now) actor (length (issued_by actor r.engine.history))) }
    ensures all { IfOk result
        (λ r. AllHaveEnded (scripts_of scenario.now.value) capacity r.engine.history (ending_of r.endings.items)) }
{
    let (shared, opener) = Shared::begin(alloc, Arc::clone(scenario)?, capacity)?;
    let actors = scenario.actors.as_slice();
    let room = room_for(alloc, actors.len())?;
    let stage = ActorStage {
        rt,
        gate,
        shared,
        begin: OnceLock::new(),
    };
    let (opener, endings) = stage.perform(opener, actors, room);
    if endings.len() < actors.len() {
        return Err(NoMemory);
    }
    match stage.shared.close(opener) {
        Ok(engine) => Ok(Enactment { engine, endings }),
        Err(_) => unreachable!(),
    }
}
